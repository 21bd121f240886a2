//! How many tables and programs there are.
ghost use Rattle.std.specs.Prelude.{◌≡◌};
ghost use Rattle.catalog_rules.specs.Objects.{count_of_programs, count_of_tables};
ghost use Rattle.catalog_objects.specs.Keys.{objects_of};

use crate::object::Object;

/// How many tables there are.
pub(crate) fn count_tables(objects: &[Object]) -> usize
    ensures { result ≡ count_of_tables (objects_of objects.now) }
{
    let mut count = 0;
    for object in objects {
        if let Object::Table(_) = object {
            count += 1;
        }
    }
    count
}

/// How many functions, procedures and triggers there are.
pub(crate) fn count_programs(objects: &[Object]) -> usize
    ensures { result ≡ count_of_programs (objects_of objects.now) }
{
    let mut count = 0;
    for object in objects {
        match object {
            Object::Table(_) => {}
            Object::Function(_) | Object::Procedure(_) | Object::Trigger(_) => count += 1,
        }
    }
    count
}
