use demo_gen::{module_text, set_text};
use std::alloc::Global;
use std::test::Fail;

#[test]
fn the_chain_of_two_stages(rt: HostRuntime) -> Result<(), Fail> {
    let alloc: Global = rt.alloc();
    let module = module_text(alloc, 2)?;
    assert!(rt;
        module.bytes()
            == b"module chain(input clk, input rst, input iv, input [7:0] d, output v, output [7:0] o);\nreg v1; reg [7:0] d1;\nreg v2; reg [7:0] d2;\nassign v = v2;\nassign o = d2;\nalways @(posedge clk) begin if (rst) v1 <= 1'b0; else v1 <= iv; d1 <= d; end\nalways @(posedge clk) begin if (rst) v2 <= 1'b0; else v2 <= v1; d2 <= d1; end\nendmodule\n".as_slice()
    );
    let set = set_text(alloc, 2)?;
    assert!(rt;
        set.bytes()
            == b"block chain; clock clk; reset rst high 1;\ninput iv; input [7:0] d; output v; output [7:0] o when v;\nproperty reset { length 0; window 1;\ncommit !v@0;\ncommit !v@1;\ncover v from 0 to 2; cover o from 0 to 2; next pass; }\noperation pass { length 1; window 2;\ncommit v@2 == iv@0; commit !iv@0 || o@2 == d@0;\ncover v from 2 to 3; cover o from 2 to 3; next pass; }\n".as_slice()
    );
    Ok(())
}
