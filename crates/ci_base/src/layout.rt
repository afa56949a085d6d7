//! What the shared state knows of a project: its functions, its cells, and its GLOBAL scalars by name.
ghost use Rattle.std.specs.Prelude.{◌≡◌};

use crate::text::Text;
use crate::value::{Kind, Value};
use std::marker::Model;

/// What a task can be started from: a function, with what it takes.
#[derive(Debug, Drop)]
pub struct Head {
    /// Its name, as it is declared.
    pub name: Text,
    /// Whether it is seen in every file. A task is started from such a function alone.
    pub public: bool,
    /// The kinds of its parameters, at most 16.
    pub kinds: KindList,
    /// The defaults of its last parameters: at most as many as there are parameters, each of its parameter's kind.
    pub defaults: ValueList,
}

/// A shared cell: a scalar, or an element of an array.
#[derive(Debug, Drop)]
pub struct CellHead {
    pub kind: Kind,
    /// What it holds at first, of that kind.
    pub first: Value,
}

/// A GLOBAL scalar.
#[derive(Debug, Drop)]
pub struct Global {
    /// Its name, as it is declared.
    pub name: Text,
    /// The number of its cell, counted from 0.
    pub cell: u32,
}

/// What the shared state knows of a project.
#[derive(Debug, Drop)]
pub struct Layout {
    /// The functions, by their numbers from 0.
    pub functions: HeadList,
    /// The cells, by their numbers from 0.
    pub cells: CellHeadList,
    /// The GLOBAL scalars, by rising numbers of their cells.
    pub globals: GlobalList,
}

/// Kinds, in order. Contracts see the list.
#[derive(Debug, Drop)]
pub struct KindList {
    kept: Vec<Kind>,
}

impl Model for KindList {
    ghost use Rattle.std.specs.Prelude.{List};
    ghost use Rattle.ci_base.specs.declared.value.Kind.{Kind as Member};

    ghost Value = { List Member };

    ghost view = { λ list. list.kept.items };
}

impl KindList {
    /// The list of these. Takes no memory.
    pub fn of(members: Vec<Kind>) -> KindList
        ensures { result ≡ members.items }
    {
        KindList { kept: members }
    }

    /// The members, in order.
    pub fn members(&self) -> &[Kind]
        ensures { result.now ≡ self.now }
    {
        self.kept.as_slice()
    }
}

/// Values, in order. Contracts see the list.
#[derive(Debug, Drop)]
pub struct ValueList {
    kept: Vec<Value>,
}

impl Model for ValueList {
    ghost use Rattle.std.specs.Prelude.{List};
    ghost use Rattle.ci_base.specs.declared.value.Value.{Value as Member};

    ghost Value = { List Member };

    ghost view = { λ list. list.kept.items };
}

impl ValueList {
    /// The list of these. Takes no memory.
    pub fn of(members: Vec<Value>) -> ValueList
        ensures { result ≡ members.items }
    {
        ValueList { kept: members }
    }

    /// The members, in order.
    pub fn members(&self) -> &[Value]
        ensures { result.now ≡ self.now }
    {
        self.kept.as_slice()
    }
}

/// Functions, in order. Contracts see the list.
#[derive(Debug, Drop)]
pub struct HeadList {
    kept: Vec<Head>,
}

impl Model for HeadList {
    ghost use Rattle.std.specs.Prelude.{List};
    ghost use Rattle.ci_base.specs.declared.layout.Head.{Head as Member};

    ghost Value = { List Member };

    ghost view = { λ list. list.kept.items };
}

impl HeadList {
    /// The list of these. Takes no memory.
    pub fn of(members: Vec<Head>) -> HeadList
        ensures { result ≡ members.items }
    {
        HeadList { kept: members }
    }

    /// The members, in order.
    pub fn members(&self) -> &[Head]
        ensures { result.now ≡ self.now }
    {
        self.kept.as_slice()
    }
}

/// Cells, in order. Contracts see the list.
#[derive(Debug, Drop)]
pub struct CellHeadList {
    kept: Vec<CellHead>,
}

impl Model for CellHeadList {
    ghost use Rattle.std.specs.Prelude.{List};
    ghost use Rattle.ci_base.specs.declared.layout.CellHead.{CellHead as Member};

    ghost Value = { List Member };

    ghost view = { λ list. list.kept.items };
}

impl CellHeadList {
    /// The list of these. Takes no memory.
    pub fn of(members: Vec<CellHead>) -> CellHeadList
        ensures { result ≡ members.items }
    {
        CellHeadList { kept: members }
    }

    /// The members, in order.
    pub fn members(&self) -> &[CellHead]
        ensures { result.now ≡ self.now }
    {
        self.kept.as_slice()
    }
}

/// GLOBAL scalars, in order. Contracts see the list.
#[derive(Debug, Drop)]
pub struct GlobalList {
    kept: Vec<Global>,
}

impl Model for GlobalList {
    ghost use Rattle.std.specs.Prelude.{List};
    ghost use Rattle.ci_base.specs.declared.layout.Global.{Global as Member};

    ghost Value = { List Member };

    ghost view = { λ list. list.kept.items };
}

impl GlobalList {
    /// The list of these. Takes no memory.
    pub fn of(members: Vec<Global>) -> GlobalList
        ensures { result ≡ members.items }
    {
        GlobalList { kept: members }
    }

    /// The members, in order.
    pub fn members(&self) -> &[Global]
        ensures { result.now ≡ self.now }
    {
        self.kept.as_slice()
    }
}
