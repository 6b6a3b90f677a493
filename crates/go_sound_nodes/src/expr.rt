//! Expressions and places: each part is looked at, and then the node itself.
//!
//! Go, "Expressions", "Calls".

ghost use Rattle.std.specs.Prelude.{◌≡◌, true, option_map, map};
ghost use Rattle.go_type.specs.Levels.{tree_of};
ghost use Rattle.go_core.specs.CoreView.{bound_of, var_of, callee_view, expr_form_view, expr_view, exprs_view, place_view};
ghost use Rattle.go_core.specs.SoundNode.{with_all};
ghost use Rattle.go_core.specs.Sound.{SoundExpr, SoundExprs, SoundBound, SoundElements, SoundPairs, SoundCallee, SoundPlace, SoundGate};
ghost use Rattle.go_sound_nodes.specs.Around.{around, program_in, trees_in};
ghost use Rattle.go_sound_nodes.specs.Known.{Knows};
ghost use Rattle.go_sound_nodes.specs.ListView.{elements_view, pairs_view};

use crate::judge::Judge;
use crate::round::Round;
use go_core::node::{
    Callee, CoreElements, CoreExpr, CoreExprs, CoreForm, CorePairs, CorePlace, PlaceForm,
};
use go_sound_parts::conversions::is_conversion;
use go_sound_parts::fields::{is_gate_field, is_plain_field, part_fits};
use go_sound_parts::given::{Wanted, all_give, gives};
use go_sound_parts::levels::{
    is_array, is_bool, is_built, is_channel, is_empty_interface, is_map, is_ordered, is_slice,
    is_text,
};
use go_sound_parts::operators::{fits, is_order};
use go_sound_parts::parts::{
    binary_fits, both_give, gives_asked, gives_int, gives_number, gives_text, goes_into,
    has_capacity, has_length, key_fits, pair_fits, slices_to, unary_fits,
};
use go_type::types::TypeId;

// Which function looks at a form.
#[derive(Clone, Copy)]
enum Group {
    /// One operand or two.
    Operator,
    /// Conversions, method values, interface values and channels.
    Typed,
    /// What a string, a slice, an array, a struct or a map is made of, or what lies in it.
    Composite,
    /// What grows a slice, or is made.
    Made,
}

fn group_of(form: &CoreForm) -> Group {
    match form {
        CoreForm::Convert { .. } => Group::Typed,
        CoreForm::Bind { .. } => Group::Typed,
        CoreForm::BindDynamic { .. } => Group::Typed,
        CoreForm::Wrap { .. } => Group::Typed,
        CoreForm::Assert { .. } => Group::Typed,
        CoreForm::Basic { .. } => Group::Typed,
        CoreForm::Receive { .. } => Group::Typed,
        CoreForm::SliceOf { .. } => Group::Composite,
        CoreForm::Build { .. } => Group::Composite,
        CoreForm::BuildMap { .. } => Group::Composite,
        CoreForm::MapGet { .. } => Group::Composite,
        CoreForm::Len { .. } => Group::Composite,
        CoreForm::Cap { .. } => Group::Composite,
        CoreForm::Append { .. } => Group::Made,
        CoreForm::CopyElems { .. } => Group::Made,
        CoreForm::MakeSlice { .. } => Group::Made,
        CoreForm::MakeMap { .. } => Group::Made,
        CoreForm::MakeChan { .. } => Group::Made,
        _ => Group::Operator,
    }
}

impl<'a> Judge<'a> {
    /// Whether an expression is sound.
    #[cycle(expr)]
    pub fn expr(&self, round: &Round<'_>, e: &CoreExpr) -> bool
        ensures is { Knows self.now → result ≡ true → SoundExpr (program_in self.now) (around self.now round.now) (expr_view (trees_in self.now) e.now) }
    {
        match &*e.form {
            CoreForm::Const { ty, value } => fits(&self.program.types, *ty, value),
            CoreForm::Zero { ty } => self.is_good(*ty),
            CoreForm::Read { ty, place } => {
                self.place(round, place) && self.lies(round, place, *ty)
            }
            CoreForm::Address { ty, place } => {
                self.place(round, place) && self.address_fits(round, *ty, place)
            }
            CoreForm::Recover { ty } => is_empty_interface(&self.program.types, *ty),
            CoreForm::New { ty } => self.is_good(*ty),
            CoreForm::Closure { ty, func } => self.closure_fits(round, *ty, *func),
            CoreForm::Call {
                results,
                callee,
                operands,
            } => {
                self.callee(round, callee)
                    && self.exprs(round, operands)
                    && self.call_fits(round, callee, operands, results.as_slice())
            }
            CoreForm::GateAdd { cell, number } => {
                self.gate(round, cell)
                    && self.expr(round, number)
                    && gives_number(self.program, number)
            }
            CoreForm::GateMake { .. } => false,
            CoreForm::Let { vars, values, body } => {
                let declared = vars.items.as_slice();
                self.exprs(round, values)
                    && self.may_declare_all(declared)
                    && all_give(&self.program.types, values, Wanted::Vars(declared))
                    && self.expr(&self.among(declared, &*round), body)
            }
            form => match group_of(form) {
                Group::Operator => self.operator(round, form),
                Group::Typed => self.typed(round, form),
                Group::Composite => self.composite(round, form),
                Group::Made => self.made(round, form),
            },
        }
    }

    // One operand or two.
    #[cycle(expr)]
    fn operator(&self, round: &Round<'_>, form: &CoreForm) -> bool
        ensures is { Knows self.now → result ≡ true → SoundExpr (program_in self.now) (around self.now round.now) (expr_form_view (trees_in self.now) form.now) }
    {
        match form {
            CoreForm::Unary { op, ty, operand } => {
                self.expr(round, operand) && unary_fits(self.program, *op, *ty, operand)
            }
            CoreForm::Binary {
                op,
                ty,
                left,
                right,
            } => {
                self.expr(round, left)
                    && self.expr(round, right)
                    && binary_fits(self.program, *op, *ty, left, right)
            }
            CoreForm::Concat { ty, left, right } => {
                self.expr(round, left)
                    && self.expr(round, right)
                    && both_give(self.program, *ty, left, right)
                    && is_text(&self.program.types, *ty)
            }
            CoreForm::Equal {
                negated: _,
                operands,
                ty,
                left,
                right,
            } => {
                self.expr(round, left)
                    && self.expr(round, right)
                    && both_give(self.program, *operands, left, right)
                    && self.may_compare(*operands, left, right)
                    && is_bool(&self.program.types, *ty)
            }
            CoreForm::Less {
                op,
                operands,
                ty,
                left,
                right,
            } => {
                self.expr(round, left)
                    && self.expr(round, right)
                    && is_order(*op)
                    && both_give(self.program, *operands, left, right)
                    && is_ordered(&self.program.types, *operands)
                    && is_bool(&self.program.types, *ty)
            }
            CoreForm::AndThen { ty, left, right } => {
                self.expr(round, left)
                    && self.expr(round, right)
                    && both_give(self.program, *ty, left, right)
                    && is_bool(&self.program.types, *ty)
            }
            CoreForm::OrElse { ty, left, right } => {
                self.expr(round, left)
                    && self.expr(round, right)
                    && both_give(self.program, *ty, left, right)
                    && is_bool(&self.program.types, *ty)
            }
            CoreForm::Not { ty, operand } => {
                self.expr(round, operand)
                    && gives(&self.program.types, operand, *ty)
                    && is_bool(&self.program.types, *ty)
            }
            CoreForm::ByteAt { text, index } => {
                self.expr(round, text)
                    && self.expr(round, index)
                    && gives_text(self.program, text)
                    && gives_int(self.program, index)
            }
            _ => false,
        }
    }

    // Conversions, interface values and channels.
    #[cycle(expr)]
    fn typed(&self, round: &Round<'_>, form: &CoreForm) -> bool
        ensures is { Knows self.now → result ≡ true → SoundExpr (program_in self.now) (around self.now round.now) (expr_form_view (trees_in self.now) form.now) }
    {
        match form {
            CoreForm::Convert { from, ty, operand } => {
                self.expr(round, operand)
                    && gives(&self.program.types, operand, *from)
                    && self.is_good(*ty)
                    && is_conversion(self.program, *from, *ty)
            }
            CoreForm::Bind {
                ty,
                method,
                receiver,
            } => {
                self.expr(round, receiver)
                    && gives(&self.program.types, receiver, method.ty)
                    && self.bind_fits(*ty, method)
            }
            CoreForm::BindDynamic {
                ty,
                name,
                package,
                receiver,
            } => {
                self.expr(round, receiver)
                    && self.bind_dynamic_fits(*ty, name.as_bytes(), package.as_bytes(), receiver)
            }
            CoreForm::Wrap { from, ty, operand } => {
                self.expr(round, operand) && self.wrap_fits(*from, *ty, operand)
            }
            CoreForm::Assert { ty, operand, .. } => {
                self.expr(round, operand)
                    && gives_asked(self.program, self.rows, *ty, operand)
                    && self.is_good(*ty)
            }
            CoreForm::Basic { ty, operand } => {
                self.expr(round, operand)
                    && gives(&self.program.types, operand, *ty)
                    && is_empty_interface(&self.program.types, *ty)
            }
            CoreForm::Receive {
                channel,
                operand,
                ..
            } => {
                self.expr(round, operand)
                    && gives(&self.program.types, operand, *channel)
                    && is_channel(&self.program.types, *channel)
            }
            _ => false,
        }
    }

    // Strings, slices, arrays, structs, maps and channels.
    #[cycle(expr)]
    fn composite(&self, round: &Round<'_>, form: &CoreForm) -> bool
        ensures is { Knows self.now → result ≡ true → SoundExpr (program_in self.now) (around self.now round.now) (expr_form_view (trees_in self.now) form.now) }
    {
        match form {
            CoreForm::SliceOf {
                from,
                ty,
                operand,
                low,
                high,
                limit,
            } => {
                self.expr(round, operand)
                    && self.bound(round, low)
                    && self.bound(round, high)
                    && self.bound(round, limit)
                    && gives(&self.program.types, operand, *from)
                    && slices_to(self.program, *from, *ty)
            }
            CoreForm::Build {
                ty,
                count,
                elements,
            } => {
                self.elements(round, *ty, *count, elements)
                    && self.is_good(*ty)
                    && is_built(&self.program.types, *ty)
            }
            CoreForm::BuildMap { ty, pairs } => {
                self.pairs(round, *ty, pairs)
                    && self.is_good(*ty)
                    && is_map(&self.program.types, *ty)
            }
            CoreForm::MapGet {
                map_type,
                operand,
                key,
                ..
            } => {
                self.expr(round, operand)
                    && self.expr(round, key)
                    && gives(&self.program.types, operand, *map_type)
                    && key_fits(self.program, *map_type, key)
            }
            CoreForm::Len { from, operand } => {
                self.expr(round, operand)
                    && gives(&self.program.types, operand, *from)
                    && has_length(self.program, *from)
            }
            CoreForm::Cap { from, operand } => {
                self.expr(round, operand)
                    && gives(&self.program.types, operand, *from)
                    && has_capacity(self.program, *from)
            }
            _ => false,
        }
    }

    // What grows a slice, or is made.
    #[cycle(expr)]
    fn made(&self, round: &Round<'_>, form: &CoreForm) -> bool
        ensures is { Knows self.now → result ≡ true → SoundExpr (program_in self.now) (around self.now round.now) (expr_form_view (trees_in self.now) form.now) }
    {
        match form {
            CoreForm::Append {
                ty,
                from,
                operand,
                elements,
            } => {
                self.expr(round, operand)
                    && self.expr(round, elements)
                    && gives(&self.program.types, operand, *ty)
                    && gives(&self.program.types, elements, *from)
                    && goes_into(self.program, *ty, *from)
            }
            CoreForm::CopyElems {
                ty,
                from,
                target,
                source,
            } => {
                self.expr(round, target)
                    && self.expr(round, source)
                    && gives(&self.program.types, target, *ty)
                    && gives(&self.program.types, source, *from)
                    && goes_into(self.program, *ty, *from)
            }
            CoreForm::MakeSlice {
                ty,
                length,
                capacity,
            } => {
                self.expr(round, length)
                    && self.bound(round, capacity)
                    && gives_int(self.program, length)
                    && self.is_good(*ty)
                    && is_slice(&self.program.types, *ty)
            }
            CoreForm::MakeMap { ty, count } => {
                self.bound(round, count) && self.is_good(*ty) && is_map(&self.program.types, *ty)
            }
            CoreForm::MakeChan { ty, capacity } => {
                self.bound(round, capacity)
                    && self.is_good(*ty)
                    && is_channel(&self.program.types, *ty)
            }
            _ => false,
        }
    }

    // A size or a bound is an integer.
    #[cycle(expr)]
    fn bound(&self, round: &Round<'_>, e: &Option<CoreExpr>) -> bool
        ensures is { Knows self.now → result ≡ true → SoundBound (program_in self.now) (around self.now round.now) (bound_of (option_map (expr_view (trees_in self.now)) e.now)) }
    {
        match e {
            Some(e) => self.expr(round, e) && gives_int(self.program, e),
            None => true,
        }
    }

    #[cycle(expr)]
    fn elements(&self, round: &Round<'_>, t: TypeId, count: u32, list: &CoreElements) -> bool
        ensures is { let ts = trees_in self.now in Knows self.now → result ≡ true → SoundElements (program_in self.now) (around self.now round.now) (tree_of ts t) count (elements_view ts list.now) }
    {
        for x in &list.items {
            if !self.expr(round, &x.value)
                || !part_fits(self.program, t, count, x.index, &x.value)
            {
                return false;
            }
        }
        true
    }

    #[cycle(expr)]
    fn pairs(&self, round: &Round<'_>, t: TypeId, list: &CorePairs) -> bool
        ensures is { let ts = trees_in self.now in Knows self.now → result ≡ true → SoundPairs (program_in self.now) (around self.now round.now) (tree_of ts t) (pairs_view ts list.now) }
    {
        for x in &list.items {
            if !self.expr(round, &x.key) || !self.expr(round, &x.value) {
                return false;
            }
            if !pair_fits(self.program, t, &x.key, &x.value) {
                return false;
            }
        }
        true
    }

    /// Whether operands are sound.
    #[cycle(expr)]
    pub fn exprs(&self, round: &Round<'_>, list: &CoreExprs) -> bool
        ensures is { Knows self.now → result ≡ true → SoundExprs (program_in self.now) (around self.now round.now) (exprs_view (trees_in self.now) list.now) }
    {
        for e in &list.items {
            if !self.expr(round, e) {
                return false;
            }
        }
        true
    }

    /// Whether what is called is sound.
    #[cycle(expr)]
    pub fn callee(&self, round: &Round<'_>, callee: &Callee) -> bool
        ensures is { Knows self.now → result ≡ true → SoundCallee (program_in self.now) (around self.now round.now) (callee_view (trees_in self.now) callee.now) }
    {
        match callee {
            Callee::Function(_) => true,
            Callee::Method(_) => true,
            Callee::Value(e) => self.expr(round, e),
            Callee::Dynamic { receiver, .. } => self.expr(round, receiver),
        }
    }

    /// Whether a place is sound.
    #[cycle(expr)]
    pub fn place(&self, round: &Round<'_>, place: &CorePlace) -> bool
        ensures is { Knows self.now → result ≡ true → SoundPlace (program_in self.now) (around self.now round.now) (place_view (trees_in self.now) place.now) }
    {
        match &*place.form {
            PlaceForm::Local(_) => self.has_type(round, place),
            PlaceForm::Global(_) => self.has_type(round, place),
            PlaceForm::Deref(e) => self.expr(round, e) && self.has_type(round, place),
            PlaceForm::Field {
                struct_type,
                number,
                place,
            } => {
                self.place(round, place)
                    && self.lies(round, place, *struct_type)
                    && is_plain_field(self.program, *struct_type, *number)
            }
            PlaceForm::Elem {
                array_type,
                place,
                index,
            } => {
                self.place(round, place)
                    && self.expr(round, index)
                    && self.lies(round, place, *array_type)
                    && is_array(&self.program.types, *array_type)
                    && gives_int(self.program, index)
            }
            PlaceForm::SliceElem {
                slice_type,
                operand,
                index,
            } => {
                self.expr(round, operand)
                    && self.expr(round, index)
                    && gives(&self.program.types, operand, *slice_type)
                    && is_slice(&self.program.types, *slice_type)
                    && gives_int(self.program, index)
            }
        }
    }

    /// Whether it is the pointer to a gate's cell: that of a gate field, and no other.
    #[cycle(expr)]
    pub fn gate(&self, round: &Round<'_>, e: &CoreExpr) -> bool
        ensures is { Knows self.now → result ≡ true → SoundGate (program_in self.now) (around self.now round.now) (expr_view (trees_in self.now) e.now) }
    {
        match &*e.form {
            CoreForm::GateMake { pointer } => match &*pointer.form {
                CoreForm::Address { place, .. } => match &*place.form {
                    PlaceForm::Field {
                        struct_type,
                        number,
                        place,
                    } => {
                        self.place(round, place)
                            && self.lies(round, place, *struct_type)
                            && is_gate_field(self.program, *struct_type, *number)
                    }
                    _ => false,
                },
                _ => false,
            },
            _ => false,
        }
    }
}
