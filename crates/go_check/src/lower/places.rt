//! Places from their parts.

use crate::lower::making::Making;
use gj_base::NoMemory;
use go_check_state::node::{PlaceId, PlaceNode};
use go_core::node::{GlobalId, PlaceForm, VarId};

impl<'a> Making<'a> {
    /// A place whose parts are on the stacks.
    pub fn make_place(&mut self, id: PlaceId) -> Result<(), NoMemory> {
        match self.c.nodes.places.get(id.0 as usize).copied() {
            Some(PlaceNode::Local(var)) => self.give_place(PlaceForm::Local(VarId(var.0 as u64))),
            Some(PlaceNode::Global(n)) => self.give_place(PlaceForm::Global(GlobalId(n as u64))),
            Some(PlaceNode::Deref(_)) => {
                let pointer = self.take()?;
                self.give_place(PlaceForm::Deref(pointer.core))
            }
            Some(
                PlaceNode::Field {
                    struct_type,
                    number,
                    ..
                },
            ) => {
                let place = self.take_place()?;
                self.give_place(PlaceForm::Field {
                    struct_type,
                    number,
                    place: place.core,
                })
            }
            Some(PlaceNode::Elem { array_type, .. }) => {
                let place = self.take_place()?;
                let index = self.take()?;
                self.give_place(PlaceForm::Elem {
                    array_type,
                    place: place.core,
                    index: index.core,
                })
            }
            Some(PlaceNode::SliceElem { slice_type, .. }) => {
                let index = self.take()?;
                let operand = self.take()?;
                self.give_place(PlaceForm::SliceElem {
                    slice_type,
                    operand: operand.core,
                    index: index.core,
                })
            }
            None => self.give_place(PlaceForm::Local(VarId(u64::MAX))),
        }
    }
}
