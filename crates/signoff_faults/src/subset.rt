// What to write in place of words that are outside the subset of Verilog, and of SystemVerilog's words.

// Words with spaces between, and what to write in place of each.
struct Instead {
    words: &'static str,
    write: &'static str,
}

static OUTSIDE: [Instead; 19] = [
    Instead {
        words: "initial",
        write: "give each register its first value under the reset",
    },
    Instead {
        words: "for while repeat generate endgenerate genvar",
        write: "write its turns out, or let `bin/lower` unroll it",
    },
    Instead {
        words: "function endfunction task endtask automatic",
        write: "write it out where it is called, or let `bin/lower` do so",
    },
    Instead {
        words: "integer real realtime time",
        write: "use `reg` or `wire` with a range, a parameter without a type",
    },
    Instead {
        words: "casex",
        write: "use `casez`, with `?` for bits that don't matter",
    },
    Instead {
        words: "inout tri tri0 tri1 triand trior trireg wand wor",
        write: "use an input and an output; values are 0 and 1",
    },
    Instead {
        words: "and nand nor xor xnor not buf bufif0 bufif1 notif0 notif1",
        write: "use `assign` with an operator",
    },
    Instead {
        words: "supply0",
        write: "use `assign` with the value 0",
    },
    Instead {
        words: "supply1",
        write: "use `assign` with the value 1",
    },
    Instead {
        words: "defparam",
        write: "give the parameter where the instance stands, as `#(.N(8))`",
    },
    Instead {
        words: "===",
        write: "use `==`: values are 0 and 1",
    },
    Instead {
        words: "!==",
        write: "use `!=`: values are 0 and 1",
    },
    Instead {
        words: "**",
        write: "use a shift, as `1 << n`, or write the number",
    },
    Instead {
        words: "\"",
        write: "write the number that the text stands for",
    },
    Instead {
        words: "\\",
        write: "use a name of letters, digits and `_`",
    },
    Instead {
        words: "unsigned",
        write: "leave it out: what isn't `signed` is unsigned",
    },
    Instead {
        words: "specify endspecify specparam fork join wait forever force release deassign disable",
        write: "leave it out: it stands for no hardware",
    },
    Instead {
        words: "primitive endprimitive table endtable",
        write: "write a module with `assign` or `case`",
    },
    Instead {
        words: "cell config design edge event include instance large library medium noshowcancelled small use",
        write: "it is a reserved word of Verilog: rename what it names",
    },
];

static SYSTEM: [Instead; 12] = [
    Instead {
        words: "always_ff",
        write: "use `always @(posedge clk)`",
    },
    Instead {
        words: "always_comb",
        write: "use `always @*`",
    },
    Instead {
        words: "always_latch",
        write: "use a register, since latches aren't supported",
    },
    Instead {
        words: "logic bit",
        write: "use `wire`, or `reg` where a block assigns it",
    },
    Instead {
        words: "int byte shortint longint",
        write: "use `reg` or `wire` with a range, a parameter without a type",
    },
    Instead {
        words: "enum",
        write: "use a `localparam` for each value, and a `reg` for the state",
    },
    Instead {
        words: "typedef",
        write: "use a `wire` or a `reg` with a range",
    },
    Instead {
        words: "struct",
        write: "use a vector for each field",
    },
    Instead {
        words: "interface modport",
        write: "use ports of modules",
    },
    Instead {
        words: "package import",
        write: "use a `localparam` in each module",
    },
    Instead {
        words: "unique priority",
        write: "leave it out",
    },
    Instead {
        words: "assert assume cover",
        write: "write the property into the set",
    },
];

fn has(words: &str, word: &[u8]) -> bool {
    for one in words.split(' ') {
        if one.as_bytes() == word {
            return true;
        }
    }
    false
}

fn looked_up(table: &[Instead], word: &[u8]) -> Option<&'static str> {
    for entry in table {
        if has(entry.words, word) {
            return Some(entry.write);
        }
    }
    None
}

/// What to write in place of a word or a sign that is outside the subset.
pub fn instead_of(word: &[u8]) -> &'static str {
    match word {
        [b'$', ..] => "leave it out, or write the number: it stands for no hardware",
        [b'0'..=b'9', ..] | [b'\'', ..] => {
            "a digit `x` has no value: write 0, or `?` in a label of `casez`"
        }
        _ => looked_up(&OUTSIDE, word).unwrap_or(
            "write it in other words, or let `bin/lower` do so",
        ),
    }
}

/// What to write in place of a word of SystemVerilog.
pub fn instead_of_system(word: &[u8]) -> Option<&'static str> {
    looked_up(&SYSTEM, word)
}
