//! Trees, printed forms and references of expressions, which the program shows in no run.

ghost use Rattle.std.specs.Prelude.{IfOk, IsTrue, slice_get};
ghost use Rattle.expr_tree.specs.References.{references};
ghost use Rattle.expr_tree.specs.Renaming.{CanReplace};

use expr_grammar::{
    Expr, ExprCause, ExprFault, NewReference, ParseFault, Reference, Renaming, map_paths, parse,
    print, references,
};
use std::alloc::{AllocError, Global};
use std::test::Fail;

/// Whether a reference is this path, or an area between these rows.
fn is_reference(alloc: Global, reference: &Reference, want: &str) -> Result<bool, AllocError> {
    match reference {
        Reference::ToPath(path) => Ok(path.write(alloc)?.as_str() == want),
        Reference::ToArea(area) => Ok(area.from.row == 1 && area.to.row == 2 && want == "1..2"),
    }
}

#[test]
fn lists_references(rt: HostRuntime) -> Result<(), Fail> {
    let alloc = rt.alloc();
    let tree = parse(
        alloc,
        "-a + sum(Box.b; A1:B2; mod(<<My box>>.c; 2) ^ 2; true ? d : floor(e))",
    )?;
    let listed = references(alloc, &tree)?;
    assert!(rt; listed.len() == 6);
    let wanted = ["a", "Box.b", "1..2", "<<My box>>.c", "d", "e"];
    for place in 0..6 {
        assert!(rt; is_reference(alloc, &listed[place], wanted[place])?);
    }
    Ok(())
}

/// Whether a text is printed so.
fn prints(alloc: Global, text: &str, want: &str) -> Result<bool, Fail> {
    let tree = parse(alloc, text)?;
    Ok(print(alloc, &tree)?.as_str() == want)
}

/// Whether the copy of a tree is printed so.
fn copy_prints(alloc: Global, text: &str, want: &str) -> Result<bool, Fail> {
    let tree = parse(alloc, text)?;
    let copy = tree.copy(alloc)?;
    Ok(print(alloc, &copy)?.as_str() == want)
}

/// Texts with cells, areas, placements and labels that are no names, and their printed forms.
static PRINTED: [(&str, &str); 3] = [
    (
        "sum( $A1:B$2 ,3;$A$1*S.A$1)",
        "sum($A1:B$2; 3; $A$1 * S.A$1)",
    ),
    ("Placement.Base.x-.m.Base.y", "Placement.Base.x - m.Base.y"),
    (
        "Box.Placement.Rotation.Turn/<<My box>> . Width",
        "Box.Placement.Rotation.Turn / <<My box>>.Width",
    ),
];

#[test]
fn prints_texts(rt: HostRuntime) -> Result<(), Fail> {
    for (text, want) in &PRINTED {
        assert!(rt; prints(rt.alloc(), text, want)?, "{text}");
        assert!(rt; prints(rt.alloc(), want, want)?, "{want}");
        assert!(rt; copy_prints(rt.alloc(), text, want)?, "a copy of {text}");
    }
    Ok(())
}

/// Causes and places of texts that are no expressions.
static REFUSED: [(ExprCause, &str, u64); 6] = [
    (ExprCause::Syntax, "", 0),
    (ExprCause::Syntax, "1 + * 2", 4),
    (ExprCause::Lexical, "1 + * #", 6),
    (ExprCause::Lexical, "a\n", 1),
    (ExprCause::Lexical, "<<\u{1}>>", 0),
    (ExprCause::TooLarge, "(((((((((((((((((((((((((((((((((", 32),
];

fn is_refused(alloc: Global, text: &str, want: ExprFault) -> bool {
    matches!(parse(alloc, text), Err(ParseFault::Expr(fault)) if fault == want)
}

/// Each cause, and texts that stand in no line of a script.
#[test]
fn refuses_texts(rt: HostRuntime) {
    for (cause, text, place) in &REFUSED {
        let want = ExprFault {
            place: *place,
            cause: *cause,
        };
        assert!(rt; is_refused(rt.alloc(), text, want), "{text}");
    }
}

/// A piece, how often it stands, what stands behind, and what closes each piece.
static DEEP: [(&str, u32, &str, &str); 4] = [
    ("-", 511, "1", ""),
    ("1 ? 1 : ", 127, "1", ""),
    ("1 + ", 255, "1", ""),
    ("1 - (", 32, "1 - 2", ")"),
];

fn push_copies(text: &mut String, piece: &str, count: u32) -> Result<(), AllocError> {
    for _ in 0..count {
        text.push_str(piece)?;
    }
    Ok(())
}

fn deep(
    alloc: Global,
    piece: &str,
    count: u32,
    middle: &str,
    closed: &str,
) -> Result<String, AllocError> {
    let mut text = String::new(alloc);
    push_copies(&mut text, piece, count)?;
    text.push_str(middle)?;
    push_copies(&mut text, closed, count)?;
    Ok(text)
}

/// The deepest trees of 512 tokens and 32 brackets are read, printed and copied within the stack.
#[test]
fn reads_deep_trees(rt: HostRuntime) -> Result<(), Fail> {
    for (piece, count, middle, closed) in &DEEP {
        let text = deep(rt.alloc(), piece, *count, middle, closed)?;
        assert!(rt;
            copy_prints(rt.alloc(), text.as_str(), text.as_str())?,
            "{piece}"
        );
    }
    Ok(())
}

#[test]
fn replaces_no_reference_that_is_not_listed(rt: HostRuntime) -> Result<(), Fail> {
    let tree = parse(rt.alloc(), "a + sum(b; A1:B2)")?;
    let renaming = Renaming {
        pairs: Vec::new(rt.alloc()),
    };
    let same = map_paths(rt.alloc(), &tree, &renaming)?;
    assert!(rt; print(rt.alloc(), &same)?.as_str() == "a + sum(b; A1:B2)");
    Ok(())
}

/// Whether the tree has a reference with that number, of the kind of what takes its place.
fn can_replace(alloc: Global, tree: &Expr, new: &(u32, NewReference)) -> Result<bool, AllocError>
    ensures { IfOk result (λ can. IsTrue can → CanReplace (slice_get (references tree.now) new.now.0) new.now.1) }
{
    let listed = references(alloc, tree)?;
    Ok(match listed.get(new.0 as usize) {
        Some(Reference::ToPath(_)) => matches!(&new.1, NewReference::ToPath(_)),
        Some(Reference::ToArea(_)) => matches!(&new.1, NewReference::ToArea(_)),
        None => false,
    })
}

/// The tree with both references replaced, or nothing where it has no two such ones.
fn with_replaced(
    alloc: Global,
    tree: &Expr,
    first: (u32, NewReference),
    second: (u32, NewReference),
) -> Result<Option<Expr>, AllocError> {
    if first.0 == second.0
        || !can_replace(alloc, tree, &first)?
        || !can_replace(alloc, tree, &second)?
    {
        return Ok(None);
    }
    let pairs = vec![in alloc; first, second]?;
    Ok(Some(map_paths(alloc, tree, &Renaming { pairs })?))
}

/// The same path or area, to take the place of another.
fn new_reference(alloc: Global, reference: &Reference) -> Result<NewReference, AllocError> {
    match reference {
        Reference::ToPath(path) => Ok(NewReference::ToPath(path.copy(alloc)?)),
        Reference::ToArea(area) => Ok(NewReference::ToArea(**area)),
    }
}

/// Whether a text is printed so, once both references of the new text take the places of those with
/// these numbers.
fn replaced_prints(
    alloc: Global,
    text: &str,
    numbers: (u32, u32),
    new: &str,
    want: &str,
) -> Result<bool, Fail> {
    let tree = parse(alloc, text)?;
    let new = parse(alloc, new)?;
    let listed = references(alloc, &new)?;
    if listed.len() != 2 {
        return Ok(false);
    }
    let first = (numbers.0, new_reference(alloc, &listed[0])?);
    let second = (numbers.1, new_reference(alloc, &listed[1])?);
    match with_replaced(alloc, &tree, first, second)? {
        Some(replaced) => Ok(print(alloc, &replaced)?.as_str() == want),
        None => Ok(false),
    }
}

/// Numbers of a path and of an area, what takes their places, and the printed form.
static REPLACED: [((u32, u32), &str, &str); 3] = [
    (
        (1, 2),
        "sum(<<My box>>.Width; $C$3:D4)",
        "a + sum(<<My box>>.Width; $C$3:D4; c; A1:B2)",
    ),
    (
        (0, 4),
        "sum(.mm; ZZ1:ZZ1)",
        ".mm + sum(Box.b; A1:B2; c; ZZ1:ZZ1)",
    ),
    (
        (3, 2),
        "sum(Box.Placement.Base.x; A1:B16384)",
        "a + sum(Box.b; A1:B16384; Box.Placement.Base.x; A1:B2)",
    ),
];

#[test]
fn replaces_a_path_and_an_area(rt: HostRuntime) -> Result<(), Fail> {
    let text = "a + sum(Box.b; A1:B2; c; A1:B2)";
    for (numbers, new, want) in &REPLACED {
        assert!(rt;
            replaced_prints(rt.alloc(), text, *numbers, new, want)?,
            "{want}"
        );
    }
    Ok(())
}
