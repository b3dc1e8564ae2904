//! Functions that find the class of a name, and the method of a name in a class or its nearest ancestor that has one.

ghost use Rattle.std.specs.Prelude.{◌≡◌, ℕ, ◌<◌, List, length, IfSome, Some};
ghost use Rattle.cool_classes.specs.declared.class_id.ClassId as number;
ghost use Rattle.cool_classes.specs.declared.entry.Entry as entry;
ghost use Rattle.cool_classes.specs.Chains.{IsChain};
ghost use Rattle.cool_classes.specs.Features.{implementation, HasMethod};
ghost use Rattle.cool_classes.specs.FirstNames.{FindsNames};
ghost use Rattle.cool_classes.specs.Names.{first_named};
ghost use Rattle.cool_classes.specs.Tables.{IsNamed};
ghost use Rattle.cool_classes.specs.Entries.{classes, AreWhole};
ghost use Rattle.cool_classes.specs.OwnNames.{AreAllOwn, AreNamed};

use crate::class_id::ClassId;
use crate::climbing::parent;
use crate::entry::Entry;
use crate::first_names::{FirstNames, first_index};
use crate::method::MethodRef;
use crate::own_names::{OwnNames, own_method};

/// The class of a name, if there is one.
pub(crate) fn class_named(names: &FirstNames, name: &[u8]) -> Option<ClassId>
    ensures named { (es : List entry.Entry) → AreNamed names.now.entries es → IsNamed (classes es) name.now result }
    ensures first { (all : List (List ℕ)) → FindsNames names.now.entries all → result ≡ first_named 0 all name.now }
{
    let place = first_index(names, name)?;
    Some(ClassId(place))
}

/// The method of a name that a class has, the nearest on its chain.
pub(crate) fn find_method(
    entries: &[Entry],
    own: &[OwnNames],
    c: ClassId,
    name: &[u8],
) -> Option<MethodRef>
    requires within { c.0 < length entries.now }
    requires whole { AreWhole entries.now }
    requires own { AreAllOwn (length entries.now) own.now (classes entries.now) }
    ensures nearest { (ds : List number.ClassId) → IsChain (classes entries.now) (Some c) ds → result ≡ implementation (classes entries.now) ds name.now }
    ensures has { IfSome result (λ m. HasMethod (classes entries.now) m) }
{
    let mut class = c;
    loop {
        if let Some(method) = own_method(&own[class.0 as usize], class, name) {
            return Some(method);
        }
        match parent(entries, class) {
            Some(above) => class = above,
            None => return None,
        }
    }
}
