// Words and lines of rows at the edges of what is allowed, with the answers that the rules of the text give.
use desk_core_stages::bound_of;
use outside::Text;
use path_machine::{RowFault, fault_text, read_rows};
use set_tree::Rows;
use std::alloc::{AllocError, Global};
use std::test::Fail;
use unroll_binding::Bound;

// A block and its set, whose reset takes one cycle; texts, and the rows that are read of each, or what stands against
// it.
struct Table {
    module: &'static str,
    set: &'static str,
    rows: &'static [(&'static str, &'static str)],
}

static TABLES: [Table; 3] = [
    Table {
        module: "module block(input clk, input rst, input [63:0] a, input b); endmodule",
        set: "block block; clock clk; reset rst high 1; input [63:0] a; input b;
property reset { length 0; next go; } operation go { length 1; next go; }",
        rows: &[
            ("18446744073709551615 1\n", "18446744073709551615 1\n"),
            ("18446744073709551616 1\n", "Row 1"),
            ("99999999999999999999 1\n", "Row 1"),
            ("00000000000000000007 1\n", "7 1\n"),
            ("000000000000000000007 1\n", "Row 1"),
            ("7a 1\n", "Row 1"),
            ("1 2\n", "Row 1"),
        ],
    },
    Table {
        module: "module block(input clk, input rst, input [3:0] a, input [7:0] b); endmodule",
        set: "block block; clock clk; reset rst high 1; input [3:0] a; input [7:0] b;
property reset { length 0; next go; } operation go { length 1; next go; }",
        rows: &[
            ("1 2\n15 255\n", "1 2\n15 255\n"),
            ("1 2\n16 2\n", "Row 2"),
            ("1 2\n1 256\n", "Row 2"),
            ("1 2\n1 2", "Row 2"),
            ("1 2\n1 2 \n", "Row 2"),
            ("1 2\n 1 2\n", "Row 2"),
            ("1 2\n1  2\n", "Row 2"),
            ("1 2\n1\n1 2\n", "Row 2"),
            ("1 2\n\n", "Row 2"),
            ("", "Short"),
        ],
    },
    Table {
        module: "module block(input clk, input rst, output s); assign s = 1'b0; endmodule",
        set: "block block; clock clk; reset rst high 1; state s;
property reset { length 0; next go; } operation go { length 1; next go; }",
        rows: &[("\n\n", "\n\n"), ("1\n", "Row 1")],
    },
];

fn add_row(out: &mut String, row: &[u64]) -> Result<(), AllocError> {
    let mut space = "";
    for value in row {
        write!(out, "{space}{value}")?;
        space = " ";
    }
    out.push('\n')
}

fn rows_text(alloc: Global, rows: &[Rows<u64>]) -> Result<Text, AllocError> {
    let mut out = String::new(alloc);
    for row in rows {
        add_row(&mut out, row.as_slice())?;
    }
    Text::copy(alloc, out.as_bytes())
}

fn read(alloc: Global, bound: &Bound, text: &str) -> Result<Text, AllocError> {
    match read_rows(alloc, text.as_bytes(), bound) {
        Ok(rows) => rows_text(alloc, rows.as_slice()),
        Err(fault) => fault_text(alloc, &fault),
    }
}

fn add_said(
    alloc: Global,
    said: &mut Vec<Text>,
    bound: &Bound,
    table: &Table,
) -> Result<(), AllocError> {
    for (text, _) in table.rows {
        said.push(read(alloc, bound, text)?)?;
    }
    Ok(())
}

fn said(alloc: Global, table: &Table) -> Result<Vec<Text>, AllocError> {
    let mut said = Vec::new(alloc);
    match bound_of(alloc, table.module.as_bytes(), table.set.as_bytes()) {
        Ok(bound) => {
            let added = add_said(alloc, &mut said, &bound, table);
            // calls, since a proof would write out the drops of all trees here
            drop(bound);
            added?;
        }
        Err(fault) => drop(fault),
    }
    Ok(said)
}

#[test]
fn rows_are_read_or_refused(rt: HostRuntime) -> Result<(), Fail> {
    for table in &TABLES {
        let said = said(rt.alloc(), table)?;
        assert_eq!(rt; said.len(), table.rows.len(), "the set fits the block");
        for (said, (text, want)) in said.iter().zip(table.rows) {
            assert_eq!(rt; said.bytes(), want.as_bytes(), "{text:?}");
        }
    }
    Ok(())
}

#[test]
fn faults_are_shown(rt: HostRuntime) -> Result<(), Fail> {
    for (fault, shown) in &[
        (RowFault::Long, "the stimulus has more than 1,048,576 bytes"),
        (
            RowFault::Row(17),
            "line 17 isn't a row of values of the inputs",
        ),
        (
            RowFault::Short,
            "the stimulus has fewer rows than there are reset cycles",
        ),
        (RowFault::Memory, "out of memory"),
    ] {
        assert_eq!(rt; fault.to_string(rt.alloc())?.as_str(), *shown);
    }
    Ok(())
}
