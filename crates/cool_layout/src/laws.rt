//! A theorem about layouts: each class has its own tag, and the tags of a class and of the classes below it are a range.

ghost use Rattle.std.specs.Prelude.{List};
ghost use Rattle.cool_classes.specs.Chains.{Class};
ghost use Rattle.cool_layout.specs.Roots.{IsRooted};
ghost use Rattle.cool_layout.specs.Tags.{AreTags};

/// Each class has a tag of its own below the number of classes, and the tags of a class and of those below it are a range.
pub fn law_tags()
    ensures { (p : List Class) → IsRooted p → AreTags p }
{}
