// Expressions, by how tightly their operators bind.
ghost use Rattle.std.specs.Prelude.{◌≡◌, ◌≤◌, ◌<◌, ◌+◌, ◌-◌, length, Some, None, codes, true, IfOk, IfErr};
ghost use Rattle.vlog_tree.specs.Signs.{kind_at, IsSign, IsWord, infix_at, infix_level, binary_level, unary_at, cast_at, cast_of, span_at};
ghost use Rattle.vlog_tree.specs.Spelling.{height, Reads, IsName};
ghost use Rattle.vlog_tree.specs.declared.token.Kind.TheVariants as kind;
ghost use Rattle.vlog_tree.specs.declared.expr.Infix.TheVariants as between;
ghost use Rattle.vlog_read_expr.specs.Answers.{Answers, Grown, Extends, IsNextOp, Encloses, Lists, Refuses, IsRead};

use crate::name::{Named, read_name};
use crate::tokens::{after, infix_at, is_alone, is_sign, kind_at, span_at};
use sqlite_items::{Boxed, Items};
use std::alloc::Global;
use vlog_read_lex::ReadFault;
use vlog_tree::{Binary, Cast, Expr, Infix, Kind, Number, Span, Token, Unary, is};

// Where a reading fails, the trees that were read before are dropped by a call: dropped in place, each would be proved
// anew at each such exit.

// How tightly a choice binds.
const CHOICE: u8 = 1;

const MAX_HEIGHT: usize = 500;

/// A tree, its height, and the place after it.
#[derive(Drop)]
pub struct Parsed {
    pub tree: Expr,
    pub height: usize,
    pub end: usize,
}

/// Trees with commas between, the greatest height among them, and the place after them.
#[derive(Drop)]
pub struct Listed {
    pub items: Items<Expr>,
    pub height: usize,
    pub end: usize,
}

// Reads the expressions of one text.
#[derive(Drop)]
struct Reader<'a> {
    // Where the trees are kept.
    alloc: Global,
    // Whether the text is a set, and not modules.
    set: bool,
    tokens: &'a [Token],
}

// Which expression is sought.
#[derive(Clone, Copy)]
struct Sought {
    // Where it begins.
    at: usize,
    // How tightly its operators bind at least.
    level: u8,
    // How high it is at most.
    depth: usize,
}

// A select or part-select of which the first expression in brackets is read.
#[derive(Drop)]
struct SelectStart {
    // Where the name begins.
    at: usize,
    // The name, which ends where the bracket stands.
    named: Named,
    index: Parsed,
}

impl Reader<'_> {
    // The operator at a place, if it binds at `level` or more.
    fn operator_at(&self, at: usize, level: u8) -> Option<Infix>
        ensures { IsNextOp self.now.set self.now.tokens.now level at result }
    {
        match infix_at(self.set, self.tokens, at) {
            Some(op) if level <= op.level() => Some(op),
            _ => None,
        }
    }

    #[cycle(expr)]
    fn expr_at(&self, at: usize, level: u8, depth: usize) -> Result<Parsed, ReadFault>
        requires known { level ≤ 12 }
        requires low { depth ≤ 500 }
        ensures { Answers self.now.set self.now.tokens.now level at depth result }
    {
        let mut left = self.operand(at, depth)?;
        while let Some(op) = self.operator_at(left.end, level) {
            left = self.extended(Sought { at, level, depth }, left, op)?;
        }
        Ok(left)
    }

    // The tree that an operator makes with `left` as its left part.
    #[cycle(expr)]
    fn extended(&self, sought: Sought, left: Parsed, op: Infix) -> Result<Parsed, ReadFault>
        requires grown { Grown self.now.set self.now.tokens.now sought.level sought.at sought.depth left }
        requires sign { infix_at self.now.set self.now.tokens.now left.end ≡ Some op }
        requires high { sought.level ≤ infix_level op }
        requires low { sought.depth ≤ 500 }
        ensures { Extends self.now.set self.now.tokens.now sought.level sought.at sought.depth left.end result }
    {
        match op {
            Infix::Binary(op) => self.binary(sought, left, op),
            Infix::Choice => self.choice(sought, left),
        }
    }

    #[cycle(expr)]
    fn binary(&self, sought: Sought, left: Parsed, op: Binary) -> Result<Parsed, ReadFault>
        requires grown { Grown self.now.set self.now.tokens.now sought.level sought.at sought.depth left }
        requires sign { infix_at self.now.set self.now.tokens.now left.end ≡ Some (between.Binary op) }
        requires high { sought.level ≤ binary_level op }
        requires low { sought.depth ≤ 500 }
        ensures { Extends self.now.set self.now.tokens.now sought.level sought.at sought.depth left.end result }
    {
        let next = after(self.tokens, left.end);
        let right = match self.expr_at(next, op.level() + 1, sought.depth - 1) {
            Ok(right) => right,
            Err(fault) => {
                drop(left);
                return Err(fault);
            }
        };
        let height = left.height.max(right.height) + 1;
        if height > sought.depth {
            drop(left);
            drop(right);
            return Err(ReadFault::Deep);
        }
        let end = right.end;
        let left = Boxed::new(self.alloc, left.tree);
        let right = Boxed::new(self.alloc, right.tree);
        let tree = Expr::Binary(op, left?, right?);
        Ok(Parsed { tree, height, end })
    }

    #[cycle(expr)]
    fn choice(&self, sought: Sought, left: Parsed) -> Result<Parsed, ReadFault>
        requires grown { Grown self.now.set self.now.tokens.now sought.level sought.at sought.depth left }
        requires sign { infix_at self.now.set self.now.tokens.now left.end ≡ Some between.Choice }
        requires high { sought.level ≤ 1 }
        requires low { sought.depth ≤ 500 }
        ensures { Extends self.now.set self.now.tokens.now sought.level sought.at sought.depth left.end result }
    {
        let next = after(self.tokens, left.end);
        let yes = match self.expr_at(next, CHOICE, sought.depth - 1) {
            Ok(yes) => yes,
            Err(fault) => {
                drop(left);
                return Err(fault);
            }
        };
        if !is_sign(self.tokens, yes.end, b":") {
            let place = yes.end;
            drop(left);
            drop(yes);
            return Err(ReadFault::Syntax(place));
        }
        let last = after(self.tokens, yes.end);
        let no = match self.expr_at(last, CHOICE, sought.depth - 1) {
            Ok(no) => no,
            Err(fault) => {
                drop(left);
                drop(yes);
                return Err(fault);
            }
        };
        self.chosen(sought, left, yes, no)
    }

    // A choice whose parts are read.
    fn chosen(
        &self,
        sought: Sought,
        left: Parsed,
        yes: Parsed,
        no: Parsed,
    ) -> Result<Parsed, ReadFault>
        requires grown { Grown self.now.set self.now.tokens.now sought.level sought.at sought.depth left }
        requires sign { infix_at self.now.set self.now.tokens.now left.end ≡ Some between.Choice }
        requires high { sought.level ≤ 1 }
        requires read_yes { IsRead self.now.set self.now.tokens.now 1 (left.end + 1) (sought.depth - 1) yes }
        requires colon { IsSign self.now.tokens.now yes.end (codes ":") }
        requires read_no { IsRead self.now.set self.now.tokens.now 1 (yes.end + 1) (sought.depth - 1) no }
        requires low { sought.depth ≤ 500 }
        ensures { Extends self.now.set self.now.tokens.now sought.level sought.at sought.depth left.end result }
    {
        let height = left.height.max(yes.height.max(no.height)) + 1;
        if height > sought.depth {
            drop(left);
            drop(yes);
            drop(no);
            return Err(ReadFault::Deep);
        }
        let end = no.end;
        let left = Boxed::new(self.alloc, left.tree);
        let yes = Boxed::new(self.alloc, yes.tree);
        let no = Boxed::new(self.alloc, no.tree);
        let tree = Expr::Choice(left?, yes?, no?);
        Ok(Parsed { tree, height, end })
    }

    // A unary operator with its operand, or a form that needs none.
    #[cycle(expr)]
    fn operand(&self, at: usize, depth: usize) -> Result<Parsed, ReadFault>
        requires low { depth ≤ 500 }
        ensures { Answers self.now.set self.now.tokens.now 12 at depth result }
    {
        let Some(kind) = kind_at(self.tokens, at) else {
            return Err(ReadFault::Syntax(at));
        };
        if depth == 0 {
            return Err(ReadFault::Deep);
        }
        match kind {
            Kind::Number(number) => self.whole_number(at, *number, depth),
            Kind::Word(word) => self.worded(at, word.bytes(), depth),
            Kind::Sign(sign) => self.signed(at, sign.bytes(), depth),
            Kind::Outside => Err(ReadFault::Syntax(at)),
        }
    }

    fn whole_number(&self, at: usize, number: Number, depth: usize) -> Result<Parsed, ReadFault>
        requires here { kind_at self.now.tokens.now at ≡ Some (kind.Number number) }
        requires positive { 0 < depth }
        ensures { Answers self.now.set self.now.tokens.now 12 at depth result }
    {
        if number.wildcard {
            return Err(ReadFault::Syntax(at));
        }
        let end = after(self.tokens, at);
        if !is_alone(self.tokens, end) {
            return Err(ReadFault::Syntax(end));
        }
        Ok(Parsed {
            tree: Expr::Number(number),
            height: 1,
            end,
        })
    }

    // What begins with a word.
    #[cycle(expr)]
    fn worded(&self, at: usize, word: &[u8], depth: usize) -> Result<Parsed, ReadFault>
        requires here { IsWord self.now.tokens.now at word.now }
        requires positive { 0 < depth }
        requires low { depth ≤ 500 }
        ensures { Answers self.now.set self.now.tokens.now 12 at depth result }
    {
        match Cast::of_word(word) {
            Some(op) => self.cast(at, op, depth),
            None => self.named(at, word, depth),
        }
    }

    #[cycle(expr)]
    fn cast(&self, at: usize, op: Cast, depth: usize) -> Result<Parsed, ReadFault>
        requires within { at < length self.now.tokens.now }
        requires here { cast_at self.now.tokens.now at ≡ Some op }
        requires positive { 0 < depth }
        requires low { depth ≤ 500 }
        ensures { Answers self.now.set self.now.tokens.now 12 at depth result }
    {
        let open = after(self.tokens, at);
        if !is_sign(self.tokens, open, b"(") {
            return Err(ReadFault::Syntax(open));
        }
        let part = self.enclosed(after(self.tokens, open), b")", depth - 1)?;
        let tree = Expr::Cast(op, Boxed::new(self.alloc, part.tree)?);
        Ok(Parsed {
            tree,
            height: part.height + 1,
            end: part.end,
        })
    }

    #[cycle(expr)]
    fn named(&self, at: usize, word: &[u8], depth: usize) -> Result<Parsed, ReadFault>
        requires here { IsWord self.now.tokens.now at word.now }
        requires plain { cast_of word.now ≡ None }
        requires positive { 0 < depth }
        requires low { depth ≤ 500 }
        ensures { Answers self.now.set self.now.tokens.now 12 at depth result }
    {
        let named = read_name(self.alloc, self.set, self.tokens, at)?;
        if is_sign(self.tokens, named.end, b"[") {
            return self.bracket(at, named, depth);
        }
        Ok(Parsed {
            tree: Expr::Name(named.name),
            height: 1,
            end: named.end,
        })
    }

    // A name and what stands in brackets after it.
    #[cycle(expr)]
    fn bracket(&self, at: usize, named: Named, depth: usize) -> Result<Parsed, ReadFault>
        requires here { IsName self.now.set self.now.tokens.now at named.name named.end }
        requires open { IsSign self.now.tokens.now named.end (codes "[") }
        requires positive { 0 < depth }
        requires low { depth ≤ 500 }
        ensures { Answers self.now.set self.now.tokens.now 12 at depth result }
    {
        let index = self.expr_at(after(self.tokens, named.end), CHOICE, depth - 1)?;
        let start = SelectStart { at, named, index };
        match span_at(self.tokens, start.index.end) {
            Some(span) => self.part(start, span, depth),
            None => self.selected(start, depth),
        }
    }

    // A select of one bit, whose index is read.
    fn selected(&self, start: SelectStart, depth: usize) -> Result<Parsed, ReadFault>
        requires here { IsName self.now.set self.now.tokens.now start.at start.named.name start.named.end }
        requires open { IsSign self.now.tokens.now start.named.end (codes "[") }
        requires read { IsRead self.now.set self.now.tokens.now 1 (start.named.end + 1) (depth - 1) start.index }
        requires none { span_at self.now.tokens.now start.index.end ≡ None }
        requires positive { 0 < depth }
        requires low { depth ≤ 500 }
        ensures { Answers self.now.set self.now.tokens.now 12 start.at depth result }
    {
        if !is_sign(self.tokens, start.index.end, b"]") {
            let place = start.index.end;
            drop(start);
            return Err(ReadFault::Syntax(place));
        }
        let end = after(self.tokens, start.index.end);
        if !is_alone(self.tokens, end) {
            drop(start);
            return Err(ReadFault::Syntax(end));
        }
        let SelectStart { named, index, .. } = start;
        let tree = Expr::Select(named.name, Boxed::new(self.alloc, index.tree)?);
        Ok(Parsed {
            tree,
            height: index.height + 1,
            end,
        })
    }

    // The second number of a part-select.
    #[cycle(expr)]
    fn part(&self, start: SelectStart, span: Span, depth: usize) -> Result<Parsed, ReadFault>
        requires here { IsName self.now.set self.now.tokens.now start.at start.named.name start.named.end }
        requires open { IsSign self.now.tokens.now start.named.end (codes "[") }
        requires read { IsRead self.now.set self.now.tokens.now 1 (start.named.end + 1) (depth - 1) start.index }
        requires sign { span_at self.now.tokens.now start.index.end ≡ Some span }
        requires positive { 0 < depth }
        requires low { depth ≤ 500 }
        ensures { Answers self.now.set self.now.tokens.now 12 start.at depth result }
    {
        let next = after(self.tokens, start.index.end);
        let other = match self.enclosed(next, b"]", depth - 1) {
            Ok(other) => other,
            Err(fault) => {
                drop(start);
                return Err(fault);
            }
        };
        let SelectStart { named, index, .. } = start;
        let height = index.height.max(other.height) + 1;
        let end = other.end;
        let index = Boxed::new(self.alloc, index.tree);
        let other = Boxed::new(self.alloc, other.tree);
        let tree = Expr::Part(named.name, span, index?, other?);
        Ok(Parsed { tree, height, end })
    }

    // What begins with a sign.
    #[cycle(expr)]
    fn signed(&self, at: usize, sign: &[u8], depth: usize) -> Result<Parsed, ReadFault>
        requires here { IsSign self.now.tokens.now at sign.now }
        requires positive { 0 < depth }
        requires low { depth ≤ 500 }
        ensures { Answers self.now.set self.now.tokens.now 12 at depth result }
    {
        if is(sign, b"(") {
            self.paren(at, depth)
        } else if is(sign, b"{") {
            self.brace(at, depth)
        } else {
            match Unary::of_sign(sign) {
                Some(op) => self.unary(at, op, depth),
                None => Err(ReadFault::Syntax(at)),
            }
        }
    }

    #[cycle(expr)]
    fn unary(&self, at: usize, op: Unary, depth: usize) -> Result<Parsed, ReadFault>
        requires within { at < length self.now.tokens.now }
        requires here { unary_at self.now.tokens.now at ≡ Some op }
        requires positive { 0 < depth }
        requires low { depth ≤ 500 }
        ensures { Answers self.now.set self.now.tokens.now 12 at depth result }
    {
        let part = self.operand(after(self.tokens, at), depth - 1)?;
        let tree = Expr::Unary(op, Boxed::new(self.alloc, part.tree)?);
        Ok(Parsed {
            tree,
            height: part.height + 1,
            end: part.end,
        })
    }

    #[cycle(expr)]
    fn paren(&self, at: usize, depth: usize) -> Result<Parsed, ReadFault>
        requires here { IsSign self.now.tokens.now at (codes "(") }
        requires positive { 0 < depth }
        requires low { depth ≤ 500 }
        ensures { Answers self.now.set self.now.tokens.now 12 at depth result }
    {
        let part = self.enclosed(after(self.tokens, at), b")", depth - 1)?;
        let tree = Expr::Paren(Boxed::new(self.alloc, part.tree)?);
        Ok(Parsed {
            tree,
            height: part.height + 1,
            end: part.end,
        })
    }

    // A tree and its closing sign, which no bracket follows.
    #[cycle(expr)]
    fn enclosed(&self, at: usize, close: &[u8], depth: usize) -> Result<Parsed, ReadFault>
        requires low { depth ≤ 500 }
        ensures { Encloses self.now.set self.now.tokens.now at close.now depth result }
    {
        let part = self.expr_at(at, CHOICE, depth)?;
        if !is_sign(self.tokens, part.end, close) {
            let place = part.end;
            drop(part);
            return Err(ReadFault::Syntax(place));
        }
        let end = after(self.tokens, part.end);
        if !is_alone(self.tokens, end) {
            drop(part);
            return Err(ReadFault::Syntax(end));
        }
        Ok(Parsed {
            tree: part.tree,
            height: part.height,
            end,
        })
    }

    // What begins with a brace: the first tree tells whether it is a replication's count.
    #[cycle(expr)]
    fn brace(&self, at: usize, depth: usize) -> Result<Parsed, ReadFault>
        requires here { IsSign self.now.tokens.now at (codes "{") }
        requires positive { 0 < depth }
        requires low { depth ≤ 500 }
        ensures { Answers self.now.set self.now.tokens.now 12 at depth result }
    {
        let first = self.expr_at(after(self.tokens, at), CHOICE, depth - 1)?;
        if is_sign(self.tokens, first.end, b"{") {
            self.repeat(at, first, depth)
        } else {
            self.concat(at, first, depth)
        }
    }

    #[cycle(expr)]
    fn concat(&self, at: usize, first: Parsed, depth: usize) -> Result<Parsed, ReadFault>
        requires here { IsSign self.now.tokens.now at (codes "{") }
        requires read { IsRead self.now.set self.now.tokens.now 1 (at + 1) (depth - 1) first }
        requires flat { IsSign self.now.tokens.now first.end (codes "{") → ⊥ }
        requires positive { 0 < depth }
        requires low { depth ≤ 500 }
        ensures { Answers self.now.set self.now.tokens.now 12 at depth result }
    {
        let parts = self.list_from(after(self.tokens, at), first, depth - 1)?;
        if !is_sign(self.tokens, parts.end, b"}") {
            return Err(ReadFault::Syntax(parts.end));
        }
        let end = after(self.tokens, parts.end);
        if !is_alone(self.tokens, end) {
            return Err(ReadFault::Syntax(end));
        }
        Ok(Parsed {
            tree: Expr::Concat(parts.items),
            height: parts.height + 1,
            end,
        })
    }

    #[cycle(expr)]
    fn repeat(&self, at: usize, count: Parsed, depth: usize) -> Result<Parsed, ReadFault>
        requires here { IsSign self.now.tokens.now at (codes "{") }
        requires read { IsRead self.now.set self.now.tokens.now 1 (at + 1) (depth - 1) count }
        requires open { IsSign self.now.tokens.now count.end (codes "{") }
        requires positive { 0 < depth }
        requires low { depth ≤ 500 }
        ensures { Answers self.now.set self.now.tokens.now 12 at depth result }
    {
        let parts = match self.list(after(self.tokens, count.end), depth - 1) {
            Ok(parts) => parts,
            Err(fault) => {
                drop(count);
                return Err(fault);
            }
        };
        if !is_sign(self.tokens, parts.end, b"}") {
            drop(count);
            return Err(ReadFault::Syntax(parts.end));
        }
        let second = after(self.tokens, parts.end);
        if !is_sign(self.tokens, second, b"}") {
            drop(count);
            return Err(ReadFault::Syntax(second));
        }
        let end = after(self.tokens, second);
        if !is_alone(self.tokens, end) {
            drop(count);
            return Err(ReadFault::Syntax(end));
        }
        let height = count.height.max(parts.height) + 1;
        let tree = Expr::Repeat(Boxed::new(self.alloc, count.tree)?, parts.items);
        Ok(Parsed { tree, height, end })
    }

    // Trees with commas between.
    #[cycle(expr)]
    fn list(&self, at: usize, depth: usize) -> Result<Listed, ReadFault>
        requires low { depth ≤ 500 }
        ensures { Lists self.now.set self.now.tokens.now at depth result }
    {
        let first = self.expr_at(at, CHOICE, depth)?;
        self.list_from(at, first, depth)
    }

    // The rest of a list after its first tree.
    #[cycle(expr)]
    fn list_from(&self, at: usize, first: Parsed, depth: usize) -> Result<Listed, ReadFault>
        requires read { IsRead self.now.set self.now.tokens.now 1 at depth first }
        requires low { depth ≤ 500 }
        ensures { Lists self.now.set self.now.tokens.now at depth result }
    {
        let mut items = Items::new(self.alloc);
        items.push(first.tree)?;
        let mut height = first.height;
        let mut end = first.end;
        while is_sign(self.tokens, end, b",") {
            let item = self.expr_at(after(self.tokens, end), CHOICE, depth)?;
            items.push(item.tree)?;
            height = height.max(item.height);
            end = item.end;
        }
        Ok(Listed { items, height, end })
    }
}

/// The expression of a set's language at a place of a set's tokens, and the place after it, where the end or a token
/// stands that can't continue an expression. Syntax: there is none. Deep: it is higher than 500, or there is none and
/// more than 500 tokens follow.
pub fn read_expr(alloc: Global, tokens: &[Token], at: usize) -> Result<(Expr, usize), ReadFault>
    requires { at ≤ length tokens.now }
    ensures ok { IfOk result (λ read. Reads true tokens.now 1 at read.0 read.1) }
    ensures low { IfOk result (λ read. height read.0 ≤ 500) }
    ensures err { IfErr result (λ fault. Refuses true tokens.now 1 at 500 fault) }
{
    let reader = Reader {
        alloc,
        set: true,
        tokens,
    };
    let Parsed { tree, end, .. } = reader.expr_at(at, CHOICE, MAX_HEIGHT)?;
    Ok((tree, end))
}

/// The expression that is read at a place, no higher than `depth`, for the readers above: of a text of modules or,
/// where `set` is true, of a set.
pub fn read_tree(
    alloc: Global,
    set: bool,
    tokens: &[Token],
    at: usize,
    depth: usize,
) -> Result<Parsed, ReadFault>
    requires { depth ≤ 500 }
    ensures { Answers set tokens.now 1 at depth result }
{
    let reader = Reader { alloc, set, tokens };
    reader.expr_at(at, CHOICE, depth)
}
