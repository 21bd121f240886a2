//! Each public call on trees once with ample memory: what a text gives is as deep as it should be, and so are copies of it and of its
//! parts.
use crate::tests::common::read;
use sql_parse::ParseRefusal;
use sql_tree::{
    Cause, Expr, OrderItem, Routine, Select, Selection, Stmt, Time, TriggerDef, depth, expr_depth,
    is_name, select_depth, well, well_expr, well_select, well_step,
};
use std::alloc::Global;
use tree_copies::{
    copy_expr, copy_exprs, copy_order, copy_routine, copy_select, copy_stmt, copy_trigger,
};
use val_types::{BinOp, List, NoMemory};

/// Whether something is what the texts below give. A function that holds a tree is over this, since what drops one on its way out is
/// dear to check.
trait Meant {
    fn is_meant(&self) -> bool;
}

/// Whether a copy was made, and is meant.
fn is_copied<T: Meant + Drop>(copy: Result<T, NoMemory>) -> bool {
    match copy {
        Ok(part) => part.is_meant(),
        Err(_) => false,
    }
}

/// `a + 1`
fn is_sum(expr: &Expr) -> bool {
    matches!(expr, Expr::Binary(BinOp::Add, _, _)) && expr_depth(expr) == 2 && well_expr(expr)
}

impl Meant for Expr {
    fn is_meant(&self) -> bool {
        is_sum(self)
    }
}

impl Meant for List<Expr> {
    fn is_meant(&self) -> bool {
        matches!(self.as_slice(), [expr] if is_sum(expr))
    }
}

/// `SELECT a + 1`
impl Meant for Select {
    fn is_meant(&self) -> bool {
        select_depth(self) == 3 && well_select(self)
    }
}

/// `a + 1 DESC`
impl Meant for List<OrderItem> {
    fn is_meant(&self) -> bool {
        matches!(self.as_slice(), [item] if item.descending && is_sum(&item.by))
    }
}

fn is_body(step: &Stmt) -> bool {
    depth(step) == 3 && well_step(step)
}

/// `CREATE FUNCTION a() RETURNS INT RETURN a + 1`, from its name on.
impl Meant for Routine {
    fn is_meant(&self) -> bool {
        is_name(&self.name) && is_body(&self.body)
    }
}

/// `CREATE TRIGGER a BEFORE INSERT ON a FOR EACH ROW SET NEW.a = a + 1`
impl Meant for TriggerDef {
    fn is_meant(&self) -> bool {
        self.time == Time::Before && self.event == Cause::Insert && is_body(&self.body)
    }
}

/// A statement of four levels.
impl Meant for Stmt {
    fn is_meant(&self) -> bool {
        depth(self) == 4 && well(self)
    }
}

/// What is copied part by part.
trait Parted {
    /// Whether the copies of its parts are meant.
    fn has_copies(&self, alloc: Global) -> bool;
}

/// Whether the copies of the one value that is selected are meant.
fn has_items(alloc: Global, select: &Select) -> bool {
    match &select.what {
        Selection::Items(items) => {
            is_copied(copy_exprs(alloc, items))
                && matches!(items.as_slice(), [sum] if is_copied(copy_expr(alloc, sum)))
        }
        _ => false,
    }
}

impl Parted for Stmt {
    fn has_copies(&self, alloc: Global) -> bool {
        match self {
            Stmt::Select(select) => is_copied(copy_select(alloc, select))
                && has_items(alloc, select),
            Stmt::Delete(delete) => is_copied(copy_order(alloc, &delete.order)),
            Stmt::CreateFunction(routine) => {
                is_copied(copy_stmt(alloc, self)) && is_copied(copy_routine(alloc, routine.get()))
            }
            Stmt::CreateTrigger(trigger) => {
                is_copied(copy_stmt(alloc, self)) && is_copied(copy_trigger(alloc, trigger.get()))
            }
            _ => false,
        }
    }
}

/// Whether something was read, and its copies are meant.
fn are_copied<T: Parted + Drop>(alloc: Global, answer: Result<T, ParseRefusal>) -> bool {
    match answer {
        Ok(part) => part.has_copies(alloc),
        Err(_) => false,
    }
}

#[test]
fn trees_are_copied(rt: HostRuntime) {
    let alloc = rt.alloc();
    let function = b"CREATE FUNCTION a() RETURNS INT RETURN a + 1";
    let trigger = b"CREATE TRIGGER a BEFORE INSERT ON a FOR EACH ROW SET NEW.a = a + 1";
    assert!(rt; are_copied(alloc, read(alloc, b"SELECT a + 1")));
    assert!(rt; are_copied(alloc, read(alloc, b"DELETE FROM t ORDER BY a + 1 DESC")));
    assert!(rt; are_copied(alloc, read(alloc, function)));
    assert!(rt; are_copied(alloc, read(alloc, trigger)));
}
