// The first number of a tree that is no whole one.
ghost use Rattle.std.specs.Prelude.{◌≡◌};
ghost use Rattle.serde_json.specs.View.{view, items_view, members_view};
ghost use Rattle.json_tree.specs.Checked.{Gives};
ghost use Rattle.oci_index.specs.Numbers.{whole_in, whole_items, whole_members};

use json_tree::{Fault, Path, Step, at, under};
use serde_json::{Map, Value};
use std::alloc::Global;

/// Nothing, or the first number that is not read as a whole one, in byte order of names and by number of places.
#[cycle(whole)]
pub fn check_numbers(alloc: Global, value: &Value) -> Result<(), Fault>
    ensures { Gives result (whole_in (view value.now)) }
{
    match value {
        Value::Null => Ok(()),
        Value::Bool(_) => Ok(()),
        Value::Number(number) => {
            if number.is_f64() {
                Err(Fault::Member(Path::root(alloc)))
            } else {
                Ok(())
            }
        }
        Value::String(_) => Ok(()),
        Value::Array(items) => check_items(alloc, items),
        Value::Object(members) => check_members(alloc, members),
    }
}

#[cycle(whole)]
fn check_items(alloc: Global, items: &Vec<Value>) -> Result<(), Fault>
    ensures { Gives result (whole_items 0 (items_view items.now.items)) }
{
    for (place, item) in items.iter().enumerate() {
        match under(Step::Place(place), check_numbers(alloc, item)) {
            Ok(_) => {}
            Err(fault) => return Err(fault),
        }
    }
    Ok(())
}

#[cycle(whole)]
fn check_members(alloc: Global, members: &Map<String, Value>) -> Result<(), Fault>
    ensures { Gives result (whole_members (members_view members.now.entries)) }
{
    for (name, member) in members {
        match at(alloc, name.as_str(), check_numbers(alloc, member)) {
            Ok(_) => {}
            Err(fault) => return Err(fault),
        }
    }
    Ok(())
}
