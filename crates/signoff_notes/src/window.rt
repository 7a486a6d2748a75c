// A window of a counterexample, and the values of formulas in it.
ghost use Rattle.std.specs.Prelude.{◌≡◌, ◌%◌, ◌^◌};
ghost use Rattle.vlog_tree.specs.Valuation.{IsLength};

use outside::Text;
use set_tree::{Name as Declared, Property, Rows};
use std::alloc::{AllocError, Global};
use vlog_tree::{Entry, Expr, Name, Valuation};
use vlog_tree_values::evaluated;

/// The declared names, and their values in each cycle from cycle 0 on.
#[derive(Clone, Copy)]
pub struct Window<'a> {
    pub alloc: Global,
    pub names: &'a [Declared],
    pub rows: &'a [Rows<u64>],
}

// The low bits of a value.
fn cut(value: u64, width: u8) -> u64
    requires { IsLength width }
    ensures { result ≡ value % 2 ^ width }
{
    if width == 64 {
        value
    } else {
        value % (1u64 << width)
    }
}

impl Window<'_> {
    /// The value of the declared name at a position in a cycle.
    pub fn value(&self, position: usize, cycle: usize) -> Option<u64> {
        self.rows.get(cycle)?.as_slice().get(position).copied()
    }

    // Adds what a name stands for that is read at a cycle, unless it is there.
    fn add_name(
        &self,
        entries: &mut Valuation,
        name: &Name,
        cycle: usize,
    ) -> Result<(), AllocError> {
        let bytes = name.text.bytes();
        let found = self
            .names
            .iter()
            .position(|declared| declared.name.bytes() == bytes);
        let Some(position) = found else {
            return Ok(());
        };
        let declared = &self.names[position];
        let width = declared.width;
        let value = self.value(position, cycle.saturating_add(name.offset as usize));
        match value {
            Some(value)
                if 1 <= width && width <= 64 && entries.find(bytes, name.offset).is_none() => {
                entries.push(Entry {
                    name: Text::copy(self.alloc, bytes)?,
                    offset: name.offset,
                    width,
                    low: u64::from(declared.low),
                    signed: declared.signed,
                    depth: 0,
                    value: cut(value, width),
                })
            }
            _ => Ok(()),
        }
    }

    // Adds what the names of a formula stand for at a cycle.
    fn add_names(
        &self,
        entries: &mut Valuation,
        formula: &Expr,
        cycle: usize,
    ) -> Result<(), AllocError> {
        match formula {
            Expr::Number(_) => Ok(()),
            Expr::Name(name) => self.add_name(entries, name, cycle),
            Expr::Select(name, a) => {
                self.add_name(entries, name, cycle)?;
                self.add_names(entries, a.get(), cycle)
            }
            Expr::Part(name, _, a, b) => {
                self.add_name(entries, name, cycle)?;
                self.add_names(entries, a.get(), cycle)?;
                self.add_names(entries, b.get(), cycle)
            }
            Expr::ConstantSelect(_, a) | Expr::Cast(_, a) | Expr::Paren(a) | Expr::Unary(_, a) => {
                self.add_names(entries, a.get(), cycle)
            }
            Expr::ConstantPart(_, _, a, b) | Expr::Binary(_, a, b) => {
                self.add_names(entries, a.get(), cycle)?;
                self.add_names(entries, b.get(), cycle)
            }
            Expr::Choice(condition, a, b) => {
                self.add_names(entries, condition.get(), cycle)?;
                self.add_names(entries, a.get(), cycle)?;
                self.add_names(entries, b.get(), cycle)
            }
            // a count names nothing
            Expr::Concat(parts) | Expr::Repeat(_, parts) => {
                for part in parts.as_slice() {
                    self.add_names(entries, part, cycle)?;
                }
                Ok(())
            }
        }
    }

    /// What the names of a formula stand for at a cycle, as far as the window has the cycles that it reads.
    pub fn entries(&self, formula: &Expr, cycle: usize) -> Result<Valuation, AllocError> {
        let mut entries = Valuation::new(self.alloc);
        self.add_names(&mut entries, formula, cycle)?;
        Ok(entries)
    }

    /// The value of a formula at a cycle. None: the window ends before a cycle that it reads.
    pub fn value_of(&self, formula: &Expr, cycle: usize) -> Result<Option<u64>, AllocError> {
        let entries = self.entries(formula, cycle)?;
        match evaluated(self.alloc, formula, &entries)? {
            Some((word, _)) => Ok(Some(word.value())),
            None => Ok(None),
        }
    }

    /// The number of the first formula that doesn't hold at a cycle.
    pub fn first_false(
        &self,
        formulas: &[Expr],
        cycle: usize,
    ) -> Result<Option<usize>, AllocError> {
        for number in 0..formulas.len() {
            if self.value_of(&formulas[number], cycle)? == Some(0) {
                return Ok(Some(number));
            }
        }
        Ok(None)
    }

    /// The cycle at which a property ends that starts at cycle 0.
    pub fn end_of(&self, property: &Property) -> Result<Option<usize>, AllocError> {
        let low = usize::from(property.length.low);
        let Some(until) = &property.length.until else {
            return Ok(Some(low));
        };
        for cycle in low..usize::from(property.length.high) + 1 {
            if self.value_of(until, cycle)?.unwrap_or(0) != 0 {
                return Ok(Some(cycle));
            }
        }
        Ok(None)
    }
}
