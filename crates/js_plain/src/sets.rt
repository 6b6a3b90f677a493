//! The variables that the turns of a loop set.

use go_core::node::{PlaceForm, Var};
use go_core::statement::{CoreStmt, CoreStmtForm, CoreStmts, Target};
use js_body::Body;

/// Notes the variables that statements of the innermost loop set.
pub fn note_sets<'p>(b: &mut Body<'p>, list: &'p CoreStmts) {
    let mut work = Vec::new(b.pool.alloc);
    later(b, &mut work, list);
    for _ in 0..u64::MAX {
        let Some(list) = work.pop() else {
            return;
        };
        for s in list.items.as_slice() {
            look_at(b, &mut work, s);
        }
    }
}

fn later<'p>(b: &mut Body<'p>, work: &mut Vec<&'p CoreStmts>, list: &'p CoreStmts) {
    if work.push(list).is_err() {
        b.pool.failed = true;
    }
}

// What a statement sets is noted; the statements in it are looked at later.
fn look_at<'p>(b: &mut Body<'p>, work: &mut Vec<&'p CoreStmts>, s: &'p CoreStmt) {
    match &*s.form {
        CoreStmtForm::Declare(var) => b.note_set(var.id),
        CoreStmtForm::Store { targets, .. } => note_targets(b, targets.items.as_slice()),
        CoreStmtForm::Seq(list) => later(b, work, list),
        CoreStmtForm::If {
            when_true,
            when_false,
            ..
        } => {
            later(b, work, when_true);
            later(b, work, when_false);
        }
        CoreStmtForm::Loop { body, post, .. } => {
            later(b, work, body);
            later(b, work, post);
        }
        CoreStmtForm::SwitchOn { clauses, .. } => {
            for clause in clauses.items.as_slice() {
                later(b, work, &clause.body);
            }
        }
        CoreStmtForm::RangeNext {
            key,
            value,
            body,
            ..
        } => {
            note_var(b, *key);
            note_var(b, *value);
            later(b, work, body);
        }
        CoreStmtForm::Labeled { body, .. } => later(b, work, body),
        _ => {}
    }
}

/// Notes a variable of a range.
pub fn note_var(b: &mut Body<'_>, v: Option<Var>) {
    if let Some(v) = v {
        b.note_set(v.id);
    }
}

fn note_targets(b: &mut Body<'_>, targets: &[Target]) {
    for t in targets {
        if let Target::Place { place, .. } = t
            && let PlaceForm::Local(v) = &*place.form
        {
            b.note_set(*v);
        }
    }
}
