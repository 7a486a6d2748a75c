// The example texts.
pub const COUNTER: &[u8] = b"module counter(input clk, input rst, input en, output reg [1:0] q);
  always @(posedge clk)
    if (rst) q <= 2'd0;
    else if (en) q <= q + 2'd1;
endmodule
";

pub const COUNTER_SET: &[u8] = b"block counter; clock clk; reset rst high 1;
input en; output [1:0] q;
property reset { length 0; commit q@0 == 2'd0; cover q from 0 to 1; next step, hold; }
operation step { length 1; assume en@0; commit q@1 == q@0 + 2'd1; hand q@0;
  cover q from 1 to 2; next step, hold; }
operation hold { length 1; assume !en@0; commit q@1 == q@0; hand q@0;
  cover q from 1 to 2; next step, hold; }
";
