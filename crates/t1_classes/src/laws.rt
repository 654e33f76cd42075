//! Laws of classes.

ghost use Rattle.t1_classes.specs.Laws.{InAnyOrder, ClassesJoin, JoinedRejoin, NoTwoJoin, EachInOneClass, EqualTogether};

/// Files in another order have the same groups, and their classes have the same texts, in the same order.
pub fn in_any_order()
    ensures { InAnyOrder }
{}

/// The files of each class join, unless it is one file; and files that join to a text spell fonts that, normalized under the name,
/// rejoin to it.
pub fn classes_join()
    ensures classes { ClassesJoin }
    ensures texts { JoinedRejoin }
{}

/// The files of no two classes join.
pub fn no_two_join()
    ensures { NoTwoJoin }
{}

/// Each file is in one class, and equal files are in the same.
pub fn each_in_one_class()
    ensures places { EachInOneClass }
    ensures equal { EqualTogether }
{}
