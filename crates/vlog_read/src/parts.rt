// Names, ranges, values, and what is declared by them.
ghost use Rattle.std.specs.Prelude.{ℕ, ◌≡◌, ◌≤◌, ◌<◌, ◌+◌, codes, length, IfOk, false};
ghost use Rattle.vlog_tree.specs.Signs.{IsSign, IsWord};
ghost use Rattle.vlog_tree.specs.Lists.{Maybe, Flag, highest_of};
ghost use Rattle.vlog_tree.specs.Spelling.{IsNamed, Spells, height};
ghost use Rattle.vlog_tree.specs.Statements.{SpellsLval, lval_height};
ghost use Rattle.vlog_tree.specs.Modules.{SpellsRange, SpellsShape, SpellsValue, SpellsWire, SpellsRegister, SpellsParameter, SpellsAssign, range_height, shape_height, wire_height, register_height, parameter_height, assign_height};
ghost use Rattle.vlog_read.specs.Answers.{Finds, Before, Follows, NoSign, Plain};

use crate::part::{Found, Part};
use outside::Text;
use std::alloc::Global;
use vlog_read_expr::{after, identifier, is_sign, is_word, read_tree};
use vlog_read_lex::ReadFault;
use vlog_read_stmt::read_lval;
use vlog_tree::{Assign, Expr, Lval, Parameter, Range, Register, Shape, Token, Wire};

impl Part for Text {
    ghost spells = { IsNamed false };

    ghost height = { λ _. 0 };

    fn read(
        alloc: Global,
        tokens: &[Token],
        at: usize,
        depth: usize,
    ) -> Result<Found<Text>, ReadFault> {
        let name = identifier(alloc, false, tokens, at)?;
        Ok(Found {
            tree: name,
            height: 0,
            end: after(tokens, at),
        })
    }
}

impl Part for Expr {
    ghost spells = { Spells false };

    ghost height = { height };

    fn read(
        alloc: Global,
        tokens: &[Token],
        at: usize,
        depth: usize,
    ) -> Result<Found<Expr>, ReadFault> {
        let read = read_tree(alloc, false, tokens, at, depth)?;
        Ok(Found {
            tree: read.tree,
            height: read.height,
            end: read.end,
        })
    }
}

impl Part for Lval {
    ghost spells = { SpellsLval };

    ghost height = { lval_height };

    fn read(
        alloc: Global,
        tokens: &[Token],
        at: usize,
        depth: usize,
    ) -> Result<Found<Lval>, ReadFault> {
        let read = read_lval(alloc, tokens, at, depth)?;
        Ok(Found {
            tree: read.tree,
            height: read.height,
            end: read.end,
        })
    }
}

// `[high:low]`
fn read_range(
    alloc: Global,
    tokens: &[Token],
    at: usize,
    depth: usize,
) -> Result<Found<Range>, ReadFault>
    requires here { IsSign tokens.now at (codes "[") }
    requires low { depth ≤ 500 }
    ensures { Finds tokens.now range_height (SpellsRange tokens.now) (SpellsRange tokens.now) at depth result }
{
    let high = read_tree(alloc, false, tokens, after(tokens, at), depth)?;
    if !is_sign(tokens, high.end, b":") {
        return Err(ReadFault::Syntax(high.end).dropping(high));
    }
    let low = match read_tree(alloc, false, tokens, after(tokens, high.end), depth) {
        Ok(low) => low,
        Err(fault) => return Err(fault.dropping(high)),
    };
    if !is_sign(tokens, low.end, b"]") {
        return Err(ReadFault::Syntax(low.end).dropping((high, low)));
    }
    let height = high.height.max(low.height);
    Ok(Found {
        tree: Range {
            high: high.tree,
            low: low.tree,
        },
        height,
        end: after(tokens, low.end),
    })
}

/// A range, or nothing.
pub fn maybe_range(
    alloc: Global,
    tokens: &[Token],
    at: usize,
    depth: usize,
) -> Result<Found<Option<Range>>, ReadFault>
    requires low { depth ≤ 500 }
    ensures { Finds tokens.now (highest_of range_height) (Maybe (SpellsRange tokens.now))
        (Before (Maybe (SpellsRange tokens.now)) (NoSign (codes "[") tokens.now)) at depth result }
{
    if !is_sign(tokens, at, b"[") {
        return Ok(Found {
            tree: None,
            height: 0,
            end: at,
        });
    }
    let range = read_range(alloc, tokens, at, depth)?;
    Ok(Found {
        tree: Some(range.tree),
        height: range.height,
        end: range.end,
    })
}

/// The sign and the range of a declaration.
pub fn read_shape(
    alloc: Global,
    tokens: &[Token],
    at: usize,
    depth: usize,
) -> Result<Found<Shape>, ReadFault>
    requires low { depth ≤ 500 }
    ensures { Finds tokens.now shape_height (SpellsShape tokens.now)
        (Before (SpellsShape tokens.now) (Plain tokens.now)) at depth result }
{
    if !is_word(tokens, at, b"signed") {
        let range = maybe_range(alloc, tokens, at, depth)?;
        return Ok(Found {
            tree: Shape {
                signed: false,
                range: range.tree,
            },
            height: range.height,
            end: range.end,
        });
    }
    let range = maybe_range(alloc, tokens, after(tokens, at), depth)?;
    Ok(Found {
        tree: Shape {
            signed: true,
            range: range.tree,
        },
        height: range.height,
        end: range.end,
    })
}

/// `= value`
pub fn read_value(
    alloc: Global,
    tokens: &[Token],
    at: usize,
    depth: usize,
) -> Result<Found<Expr>, ReadFault>
    requires low { depth ≤ 500 }
    ensures { Finds tokens.now height (SpellsValue tokens.now)
        (Before (SpellsValue tokens.now) (Follows tokens.now)) at depth result }
{
    if !is_sign(tokens, at, b"=") {
        return Err(ReadFault::Syntax(at));
    }
    let read = read_tree(alloc, false, tokens, after(tokens, at), depth)?;
    Ok(Found {
        tree: read.tree,
        height: read.height,
        end: read.end,
    })
}

// `= value`, or nothing.
fn maybe_value(
    alloc: Global,
    tokens: &[Token],
    at: usize,
    depth: usize,
) -> Result<Found<Option<Expr>>, ReadFault>
    requires low { depth ≤ 500 }
    ensures { Finds tokens.now (highest_of height) (Maybe (SpellsValue tokens.now))
        (Before (Maybe (SpellsValue tokens.now)) (Follows tokens.now)) at depth result }
{
    if !is_sign(tokens, at, b"=") {
        return Ok(Found {
            tree: None,
            height: 0,
            end: at,
        });
    }
    let value = read_value(alloc, tokens, at, depth)?;
    Ok(Found {
        tree: Some(value.tree),
        height: value.height,
        end: value.end,
    })
}

impl Part for Wire {
    ghost spells = { SpellsWire };

    ghost height = { wire_height };

    fn read(
        alloc: Global,
        tokens: &[Token],
        at: usize,
        depth: usize,
    ) -> Result<Found<Wire>, ReadFault> {
        let name = identifier(alloc, false, tokens, at)?;
        let value = maybe_value(alloc, tokens, after(tokens, at), depth)?;
        Ok(Found {
            tree: Wire {
                name,
                value: value.tree,
            },
            height: value.height,
            end: value.end,
        })
    }
}

impl Part for Register {
    ghost spells = { SpellsRegister };

    ghost height = { register_height };

    fn read(
        alloc: Global,
        tokens: &[Token],
        at: usize,
        depth: usize,
    ) -> Result<Found<Register>, ReadFault> {
        let name = identifier(alloc, false, tokens, at)?;
        let words = maybe_range(alloc, tokens, after(tokens, at), depth)?;
        Ok(Found {
            tree: Register {
                name,
                words: words.tree,
            },
            height: words.height,
            end: words.end,
        })
    }
}

impl Part for Parameter {
    ghost spells = { SpellsParameter };

    ghost height = { parameter_height };

    fn read(
        alloc: Global,
        tokens: &[Token],
        at: usize,
        depth: usize,
    ) -> Result<Found<Parameter>, ReadFault> {
        let name = identifier(alloc, false, tokens, at)?;
        let value = read_value(alloc, tokens, after(tokens, at), depth)?;
        Ok(Found {
            tree: Parameter {
                name,
                value: value.tree,
            },
            height: value.height,
            end: value.end,
        })
    }
}

impl Part for Assign {
    ghost spells = { SpellsAssign };

    ghost height = { assign_height };

    fn read(
        alloc: Global,
        tokens: &[Token],
        at: usize,
        depth: usize,
    ) -> Result<Found<Assign>, ReadFault> {
        let left = read_lval(alloc, tokens, at, depth)?;
        let right = match read_value(alloc, tokens, left.end, depth) {
            Ok(right) => right,
            Err(fault) => return Err(fault.dropping(left)),
        };
        Ok(Found {
            tree: Assign {
                left: left.tree,
                right: right.tree,
            },
            height: left.height.max(right.height),
            end: right.end,
        })
    }
}
