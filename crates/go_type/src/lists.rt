//! Lists in types, which contracts see as lists.

use crate::types::{FieldRow, Method, MethodSpec, TypeId};
use gj_base::NoMemory;
use std::alloc::Global;
use std::marker::Model;

/// A list of type ids.
#[derive(Debug, Drop)]
pub struct Ids {
    ids: Vec<TypeId>,
}

impl Model for Ids {
    ghost use Rattle.std.specs.Prelude.{List};
    ghost use Rattle.go_type.specs.declared.types.TypeId.{TypeId};

    ghost Value = { List TypeId };

    ghost view = { λ l. l.ids.items };
}

impl Ids {
    ghost use Rattle.std.specs.Prelude.{◌≡◌, []};

    /// The empty list; takes no memory.
    pub fn new(alloc: Global) -> Ids
        ensures { result ≡ [] }
    {
        Ids {
            ids: Vec::new(alloc),
        }
    }

    /// The list of these items; takes no memory.
    pub fn from_vec(ids: Vec<TypeId>) -> Ids
        ensures { result ≡ ids.items }
    {
        Ids { ids }
    }

    /// The items in their vector; takes no memory.
    pub fn into_vec(self) -> Vec<TypeId>
        ensures { result.items ≡ self }
    {
        self.ids
    }

    /// The items.
    pub fn as_slice(&self) -> &[TypeId]
        ensures { result.now ≡ self.now }
    {
        self.ids.as_slice()
    }
}

/// The fields of a struct, in order.
#[derive(Debug, Drop)]
pub struct Fields {
    rows: Vec<FieldRow>,
}

impl Model for Fields {
    ghost use Rattle.std.specs.Prelude.{List};
    ghost use Rattle.go_type.specs.declared.types.FieldRow.{FieldRow};

    ghost Value = { List FieldRow };

    ghost view = { λ l. l.rows.items };
}

impl Fields {
    ghost use Rattle.std.specs.Prelude.{◌≡◌, []};

    /// The empty list; takes no memory.
    pub fn new(alloc: Global) -> Fields
        ensures { result ≡ [] }
    {
        Fields {
            rows: Vec::new(alloc),
        }
    }

    /// The list of these items; takes no memory.
    pub fn from_vec(rows: Vec<FieldRow>) -> Fields
        ensures { result ≡ rows.items }
    {
        Fields { rows }
    }

    /// The items in their vector; takes no memory.
    pub fn into_vec(self) -> Vec<FieldRow>
        ensures { result.items ≡ self }
    {
        self.rows
    }

    /// The items.
    pub fn as_slice(&self) -> &[FieldRow]
        ensures { result.now ≡ self.now }
    {
        self.rows.as_slice()
    }
}

/// Methods, sorted by name, then package.
#[derive(Debug, Drop)]
pub struct Methods {
    specs: Vec<MethodSpec>,
}

impl Model for Methods {
    ghost use Rattle.std.specs.Prelude.{List};
    ghost use Rattle.go_type.specs.declared.types.MethodSpec.{MethodSpec};

    ghost Value = { List MethodSpec };

    ghost view = { λ l. l.specs.items };
}

impl Methods {
    ghost use Rattle.std.specs.Prelude.{◌≡◌, []};

    /// The empty list; takes no memory.
    pub fn new(alloc: Global) -> Methods
        ensures { result ≡ [] }
    {
        Methods {
            specs: Vec::new(alloc),
        }
    }

    /// The list of these items; takes no memory.
    pub fn from_vec(specs: Vec<MethodSpec>) -> Methods
        ensures { result ≡ specs.items }
    {
        Methods { specs }
    }

    /// The items in their vector; takes no memory.
    pub fn into_vec(self) -> Vec<MethodSpec>
        ensures { result.items ≡ self }
    {
        self.specs
    }

    /// The items.
    pub fn as_slice(&self) -> &[MethodSpec]
        ensures { result.now ≡ self.now }
    {
        self.specs.as_slice()
    }
}

/// The declared methods of a named type, in order of declaration.
#[derive(Debug, Drop)]
pub struct Declared {
    methods: Vec<Method>,
}

impl Model for Declared {
    ghost use Rattle.std.specs.Prelude.{List};
    ghost use Rattle.go_type.specs.declared.types.Method.{Method};

    ghost Value = { List Method };

    ghost view = { λ l. l.methods.items };
}

impl Declared {
    ghost use Rattle.std.specs.Prelude.{◌≡◌, ◌++◌, [], ◌∷◌, OnOk, OnErr};

    /// The empty list; takes no memory.
    pub fn new(alloc: Global) -> Declared
        ensures { result ≡ [] }
    {
        Declared {
            methods: Vec::new(alloc),
        }
    }

    /// The list of these items; takes no memory.
    pub fn from_vec(methods: Vec<Method>) -> Declared
        ensures { result ≡ methods.items }
    {
        Declared { methods }
    }

    /// The items in their vector; takes no memory.
    pub fn into_vec(self) -> Vec<Method>
        ensures { result.items ≡ self }
    {
        self.methods
    }

    /// The items.
    pub fn as_slice(&self) -> &[Method]
        ensures { result.now ≡ self.now }
    {
        self.methods.as_slice()
    }

    /// One more method at the end; a refusal leaves the list as it was.
    pub fn push(&mut self, method: Method) -> Result<(), NoMemory>
        ensures value { OnOk result (self.new ≡ self.old ++ method ∷ []) }
        ensures same { OnErr result (self.new ≡ self.old) }
    {
        self.methods.push(method)?;
        Ok(())
    }
}
