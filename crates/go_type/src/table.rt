//! The table of types.

ghost use Rattle.std.specs.Prelude.{◌≡◌, length};
ghost use Rattle.std.specs.List.{IsDistinct};
ghost use Rattle.std.proofs.Props.{props};
ghost use Rattle.go_type.specs.Same.{type_eq};
ghost use Rattle.go_type.specs.Levels.{Rises};
ghost use Rattle.go_type.specs.Named.{NamesBelow};
ghost use Rattle.go_type.specs.Props.{Rises-prop, NamesBelow-prop};

use crate::lists::Declared;
use crate::predeclared::predeclared_levels;
use crate::types::{GoType, Method, NamedId, NamedType, Sig, TypeId};
use gj_base::{NoMemory, Text};
use indexmap::IndexSet;
use std::alloc::Global;

/// Types by id. Each level stands once, so two ids stand for identical types only where they are one.
#[derive(Drop)]
pub struct TypeTable {
    levels: IndexSet<GoType>,
    names: Vec<NamedType>,
    pub ghost distinct: { IsDistinct type_eq levels.keys } by { Prim.hlevel props },
    pub ghost rises: { Rises (length names.items) levels.keys } by { Rises-prop (length names.items) levels.keys },
    pub ghost names_below: { NamesBelow (length levels.keys) names.items } by { NamesBelow-prop (length levels.keys) names.items },
}

impl TypeTable {
    ghost use Rattle.std.specs.Prelude.{◌≡◌, ◌<◌, ◌≤◌, ◌^◌, ◌↔◌, ◌++◌, [], ◌∷◌, IsTrue, IfOk, OnOk, OnErr, IfSome, option_map, length, slice_get, Some};
    ghost use Rattle.go_type.specs.Underlying.{under_at, underlying};
    ghost use Rattle.go_type.specs.Levels.{level, tree_of, Below, SigBelow};
    ghost use Rattle.go_type.specs.Named.{named_of, NamedBelow, IsUnnamed, SetsName, new_name, with_under, with_method, method_with};
    ghost use Rattle.go_type.specs.Predeclared.{predeclared, predeclared_names};
    ghost use Rattle.go_type.specs.Table.{places, size, names, name_count, IsAdded, KeepsTrees};

    /// The table of the predeclared types.
    pub fn new(alloc: Global) -> Result<TypeTable, NoMemory>
        ensures places { IfOk result (λ t. places t ≡ predeclared) }
        ensures names { IfOk result (λ t. names t ≡ predeclared_names) }
        ensures counts { IfOk result (λ t. (size t ≡ 20) × (name_count t ≡ 1)) }
    {
        let levels = predeclared_levels(alloc)?;
        let error = NamedType {
            name: Text::from_slice(alloc, b"error")?,
            package: Text::new(alloc),
            under: Some(TypeId(18)),
            methods: Declared::new(alloc),
        };
        let mut names = Vec::new(alloc);
        names.push(error)?;
        Ok(TypeTable { levels, names })
    }

    /// The id of a type, which is that of an identical type where the table has one. A refusal leaves
    /// the table as it was.
    pub fn add(&mut self, t: GoType) -> Result<TypeId, NoMemory>
        requires { Below (size self.old) (name_count self.old) t }
        ensures tree { IfOk result (λ id. tree_of (places self.new) id ≡ level (places self.old) t) }
        ensures within { IfOk result (λ id. id.0 < size self.new) }
        ensures places { IsAdded (places self.old) (level (places self.old) t) (places self.new) }
        ensures kept { KeepsTrees self.old self.new }
        ensures names { names self.new ≡ names self.old }
        ensures counts { (size self.old ≤ size self.new) × (name_count self.new ≡ name_count self.old) }
        ensures same { OnErr result (places self.new ≡ places self.old) }
    {
        let (index, _) = self.levels.insert_full(t)?;
        Ok(TypeId(index as u64))
    }

    /// A new named type, which stands for nothing yet. A refusal leaves the table as it was.
    pub fn add_named(&mut self, name: Text, package: Text) -> Result<NamedId, NoMemory>
        ensures id { IfOk result (λ id. id.0 ≡ name_count self.old) }
        ensures names { OnOk result (names self.new ≡ names self.old ++ new_name name «package» ∷ []) }
        ensures places { places self.new ≡ places self.old }
        ensures counts { (size self.new ≡ size self.old) × (name_count self.old ≤ name_count self.new) }
        ensures within { IfOk result (λ id. id.0 < name_count self.new) }
        ensures same { OnErr result (names self.new ≡ names self.old) }
    {
        let id = self.names.len() as u64;
        let methods = Declared::new(*self.names.allocator());
        self.names.push(NamedType {
            name,
            package,
            under: None,
            methods,
        })?;
        Ok(NamedId(id))
    }

    /// Says what a named type stands for; takes no memory.
    ///
    /// Go, "Types": the underlying type of a named type is that of the type to which its declaration
    /// refers, so it isn't a named type.
    pub fn set_named(&mut self, id: NamedId, under: TypeId)
        requires id { id.0 < name_count self.old }
        requires under { under.0 < size self.old }
        requires unnamed { IsUnnamed (tree_of (places self.old) under) }
        ensures names { SetsName (names self.old) id.0 (with_under (tree_of (places self.old) under)) (names self.new) }
        ensures places { places self.new ≡ places self.old }
        ensures counts { (size self.new ≡ size self.old) × (name_count self.new ≡ name_count self.old) }
    {
        let named = &mut self.names[id.0 as usize];
        named.under = Some(under);
    }

    /// One more method of a named type. A refusal leaves the table as it was.
    pub fn add_method(
        &mut self,
        id: NamedId,
        name: Text,
        pointer: bool,
        sig: Sig,
    ) -> Result<(), NoMemory>
        requires id { id.0 < name_count self.old }
        requires sig { SigBelow (size self.old) sig }
        ensures names { OnOk result (SetsName (names self.old) id.0 (with_method (method_with (places self.old) name pointer sig)) (names self.new)) }
        ensures places { places self.new ≡ places self.old }
        ensures counts { (size self.new ≡ size self.old) × (name_count self.new ≡ name_count self.old) }
        ensures same { OnErr result (names self.new ≡ names self.old) }
    {
        let named = &mut self.names[id.0 as usize];
        named.methods.push(Method { name, pointer, sig })?;
        Ok(())
    }

    /// How many types there are: each id is below it.
    pub fn len(&self) -> u64
        ensures value { result ≡ size self.now }
        ensures small { result < 2 ^ 63 }
    {
        self.levels.len() as u64
    }

    /// How many named types there are: each of their ids is below it.
    pub fn name_len(&self) -> u64
        ensures { result ≡ name_count self.now }
    {
        self.names.len() as u64
    }

    /// Whether there are none.
    pub fn is_empty(&self) -> bool
        ensures { IsTrue result ↔ (size self.now ≡ 0) }
    {
        self.levels.is_empty()
    }

    /// The level of a type.
    pub fn get(&self, t: TypeId) -> &GoType
        requires { t.0 < size self.now }
        ensures tree { level (places self.now) result.now ≡ tree_of (places self.now) t }
        ensures within { Below (size self.now) (name_count self.now) result.now }

        // The parts of a type stand before it, a named type's aside.
        ensures rises { Below t.0 (name_count self.now) result.now }
    {
        match self.levels.get_index(t.0 as usize) {
            Some(level) => level,
            None => unreachable!(),
        }
    }

    /// A named type.
    pub fn named(&self, id: NamedId) -> &NamedType
        requires { id.0 < name_count self.now }
        ensures value { slice_get (names self.now) id.0 ≡ Some (named_of (places self.now) result.now) }
        ensures within { NamedBelow (size self.now) result.now }
    {
        &self.names[id.0 as usize]
    }

    /// What a named type stands for, once that is set.
    pub fn under_of(&self, id: NamedId) -> Option<TypeId>
        requires { id.0 < name_count self.now }
        ensures value { under_at (names self.now) id.0 ≡ option_map (tree_of (places self.now)) result }
        ensures within { IfSome result (λ t. t.0 < size self.now) }
    {
        self.named(id).under
    }

    /// The underlying type.
    ///
    /// Go, "Types".
    pub fn underlying(&self, t: TypeId) -> TypeId
        requires { t.0 < size self.now }
        ensures tree { tree_of (places self.now) result ≡ underlying (names self.now) (tree_of (places self.now) t) }
        ensures within { result.0 < size self.now }
    {
        match self.get(t) {
            GoType::Named(id) => self.under_of(*id).unwrap_or(t),
            _ => t,
        }
    }

    /// Whether two types are identical.
    ///
    /// Go, "Type identity".
    pub fn identical(&self, a: TypeId, b: TypeId) -> bool
        requires a { a.0 < size self.now }
        requires b { b.0 < size self.now }
        ensures exact { IsTrue result ↔ (tree_of (places self.now) a ≡ tree_of (places self.now) b) }

        // Each type has one id.
        ensures ids { IsTrue result ↔ (a.0 ≡ b.0) }
    {
        a.0 == b.0
    }
}
