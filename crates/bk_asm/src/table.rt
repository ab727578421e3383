// The values of names and of local labels.

ghost use Rattle.std.specs.Prelude.{◌≡◌, IfOk, OnOk, IfErr, OnErr, is_some, map};
ghost use Rattle.std.specs.FinMap.Entries.{find};
ghost use Rattle.std.specs.List.{list_any};
ghost use Rattle.bk_asm_text.specs.Flat.{plain_label};
ghost use Rattle.bk_asm_text.specs.Plain.{Local};
ghost use Rattle.bk_expr.specs.Names.{upper_case};
ghost use Rattle.bk_asm.specs.Assembled.{symbols_of};
ghost use Rattle.bk_asm.specs.Names as names;
ghost use Rattle.bk_asm.specs.Seen.{seen};

use crate::program::{Symbol, Symbols};
use bk_asm_text::Label;
use bk_base::{Bytes, NoMemory};
use bk_expr::Names;
use std::alloc::Global;
use std::collections::BTreeMap;

/// What some statements define: names, and local labels by their ranges and numbers.
#[derive(Drop)]
pub(crate) struct Table {
    pub(crate) names: BTreeMap<Vec<u8>, u16>,
    pub(crate) locals: BTreeMap<(usize, u16), u16>,
}

impl Table {
    pub(crate) fn new(alloc: Global) -> Table
        ensures { seen result ≡ names.nothing_defined }
    {
        Table {
            names: BTreeMap::new(alloc),
            locals: BTreeMap::new(alloc),
        }
    }

    /// The value of a name.
    pub(crate) fn name(&self, name: &[u8]) -> Option<u16>
        ensures { result ≡ find names.name_cmp name.now (seen self.now).names }
    {
        self.names.get(name).copied()
    }

    /// The value of a local label in a range.
    pub(crate) fn local(&self, range: usize, n: u16) -> Option<u16>
        ensures { result ≡ find names.local_cmp (range, n) (seen self.now).locals }
    {
        self.locals.get(&(range, n)).copied()
    }

    /// Gives a name, as it is written, a value, and answers the one that it had.
    pub(crate) fn set_name(
        &mut self,
        alloc: Global,
        name: &[u8],
        value: u16,
    ) -> Result<Option<u16>, NoMemory>
        ensures same { OnOk result (seen self.new ≡ names.with_name (upper_case name.now) value (seen self.old)) }
        ensures had { IfOk result (λ had. had ≡ find names.name_cmp (upper_case name.now) (seen self.old).names) }
    {
        let key = name.to_ascii_uppercase(alloc)?;
        let Ok(had) = self.names.insert(key, value) else {
            return Err(NoMemory);
        };
        Ok(had)
    }

    // Gives a local label a value in its range, and answers the one that it had.
    fn set_local(&mut self, range: usize, n: u16, value: u16) -> Result<Option<u16>, NoMemory>
        ensures same { OnOk result (seen self.new ≡ names.with_label range value (seen self.old) (Local n)) }
        ensures had { IfOk result (λ had. had ≡ find names.local_cmp (range, n) (seen self.old).locals) }
    {
        let Ok(had) = self.locals.insert((range, n), value) else {
            return Err(NoMemory);
        };
        Ok(had)
    }

    // Gives a label a value, and answers whether it was defined.
    fn set(
        &mut self,
        alloc: Global,
        range: usize,
        label: &Label<'_>,
        value: u16,
    ) -> Result<bool, NoMemory>
        ensures same { OnOk result (seen self.new ≡ names.with_label range value (seen self.old) (plain_label label.now)) }
        ensures had { IfOk result (λ had. had ≡ names.has_label range (seen self.old) (plain_label label.now)) }
    {
        let had = match label {
            Label::Name(name) => self.set_name(alloc, name, value)?,
            Label::Local(n) => self.set_local(range, *n, value)?,
        };
        Ok(had.is_some())
    }

    /// Gives the labels of a statement its address, and answers whether one of them was defined already.
    pub(crate) fn set_labels(
        &mut self,
        alloc: Global,
        range: usize,
        labels: &[Label<'_>],
        value: u16,
    ) -> Result<bool, NoMemory>
        ensures same { OnOk result (seen self.new ≡ names.with_labels range value (seen self.old) (map plain_label labels.now)) }
        ensures repeats { IfOk result (λ again. again ≡ names.repeats range value (seen self.old) (map plain_label labels.now)) }
    {
        let mut again = false;
        for label in labels {
            again |= self.set(alloc, range, label, value)?;
        }
        Ok(again)
    }

    /// The names with their values, in byte order.
    pub(crate) fn into_symbols(self, alloc: Global) -> Result<Symbols, NoMemory>
        ensures { IfOk result (λ symbols. symbols ≡ symbols_of (seen self)) }
    {
        let mut symbols = Vec::with_capacity(alloc, self.names.len())?;
        for (name, value) in &self.names {
            let mut bytes = Vec::new(alloc);
            let Ok(()) = bytes.extend_from_slice(name.as_slice()) else {
                return Err(NoMemory);
            };
            let Ok(()) = symbols.push(Symbol {
                name: Bytes::from_vec(bytes),
                value: *value,
            }) else {
                return Err(NoMemory);
            };
        }
        Ok(Symbols::from_vec(symbols))
    }
}

/// The values that expressions in a range are worked with.
#[derive(Clone, Copy)]
pub(crate) struct Scope<'a> {
    pub(crate) table: &'a Table,
    pub(crate) range: usize,
}

impl Names for Scope<'_> {
    ghost use Rattle.bk_asm.specs.Seen.{given_by};

    ghost values = { λ scope. given_by scope };

    fn name(&self, name: &[u8]) -> Option<u16> {
        self.table.name(name)
    }

    fn local(&self, n: u16) -> Option<u16> {
        self.table.local(self.range, n)
    }
}
