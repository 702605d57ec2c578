//! Laws of texts, tokens and trees, each as the contract of a function with nothing to do.
ghost use Rattle.expr_grammar.specs.Grammar.{HaveOneTree};
ghost use Rattle.expr_grammar.specs.Parse.{ClosedHasNoReferences, ExpressionParses, FaultIsCause};
ghost use Rattle.expression_laws.specs.Brackets.{PrintedFormHasTokens, BracketsAreNeeded};
ghost use Rattle.expression_laws.specs.PathsRead.{PathsAreExpressions, PathsHaveTokens};
ghost use Rattle.expression_laws.specs.Replaced.{ReferencesAreSpelled, ChangedTreesAreSpelled, RenamedTreesAreSpelled};
ghost use Rattle.expression_laws.specs.ReadBack.{PrintedFormHasTree, PrintedFormIsRead, ParsedTreesAreSpelled};

/// A list of tokens has one tree at most, at each level of the grammar.
pub fn tokens_have_one_tree()
    ensures { HaveOneTree }
{}

/// The printed form of a tree that a text can spell has lexemes, and these have that tree; so
/// within the limits on tokens and brackets it is read as the tree.
pub fn printed_form_is_read()
    ensures has_tree { PrintedFormHasTree }
    ensures is_read { PrintedFormIsRead }
{}

/// The tree of a text can be spelled: its names are names, its numerals amounts that are not
/// negative, its units those of the table, its exponents of one or two digits.
pub fn parsed_trees_are_spelled()
    ensures { ParsedTreesAreSpelled }
{}

/// Brackets stand exactly where they are needed: the printed form of a tree is its tokens, and the
/// tokens of a part have its tree at a level of the grammar exactly where the part is printed there
/// without brackets. A literal with a unit under `^` is in brackets besides.
pub fn brackets_are_needed()
    ensures has_tokens { PrintedFormHasTokens }
    ensures needed { BracketsAreNeeded }
{}

/// The expression of a text is the tree that it parses as, and else its fault is the first cause at
/// its place.
pub fn expression_is_parsed()
    ensures tree { ExpressionParses }
    ensures fault { FaultIsCause }
{}

/// A text that parses has no place of a first reference exactly where its tree has no references.
pub fn closed_has_no_references()
    ensures { ClosedHasNoReferences }
{}

/// The paths and areas of a tree that can be spelled can be spelled too. With others that can be
/// spelled in place of all, or of those that a list of numbers names, the tree can again.
pub fn renaming_keeps_spelling()
    ensures references { ReferencesAreSpelled }
    ensures changed { ChangedTreesAreSpelled }
    ensures renamed { RenamedTreesAreSpelled }
{}

/// A text is read as a path exactly where its tokens are those of the path, and so exactly where it
/// is that path as an expression, with no brackets round it.
pub fn paths_are_read_as_expressions()
    ensures tokens { PathsHaveTokens }
    ensures expressions { PathsAreExpressions }
{}
