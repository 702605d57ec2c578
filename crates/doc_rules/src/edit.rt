ghost use Rattle.std.specs.Prelude.{◌≡◌, IfOk};

use fc_base::{Address, Area};
use object_paths::Path;
use std::alloc::{AllocError, Global};
use std::marker::Model;

/// A text of a command, of any length. It is seen as the list of its bytes.
#[derive(Debug, Drop)]
pub struct EditText {
    text: String,
}

impl Model for EditText {
    ghost use Rattle.std.specs.Prelude.{List, ℕ, string_bytes};

    ghost Value = { List ℕ };

    ghost view = { λ t. string_bytes t.text };
}

impl EditText {
    /// A copy of the text.
    pub fn of(alloc: Global, text: &str) -> Result<EditText, AllocError>
        ensures { IfOk result (λ kept. kept ≡ text.now) }
    {
        let text = String::from_str(alloc, text)?;
        Ok(EditText { text })
    }

    /// The text.
    pub fn as_str(&self) -> &str
        ensures { result.now ≡ self.now }
    {
        self.text.as_str()
    }
}

/// Texts of a command, in their order. They are seen as a list.
#[derive(Debug, Drop)]
pub struct EditTexts {
    texts: Vec<EditText>,
}

impl Model for EditTexts {
    ghost use Rattle.std.specs.Prelude.{List, ℕ};

    ghost Value = { List (List ℕ) };

    ghost view = { λ t. t.texts.items };
}

impl EditTexts {
    /// The same texts.
    pub fn of(texts: Vec<EditText>) -> EditTexts
        ensures { result ≡ texts.items }
    {
        EditTexts { texts }
    }

    /// The texts.
    pub fn texts(&self) -> &[EditText]
        ensures { result.now ≡ self.now }
    {
        self.texts.as_slice()
    }
}

/// What `status` changes: `ro`, `rw`, `hide` or `show`.
#[derive(Clone, Copy, Debug, PartialEq, Eq)]
pub enum StatusChange {
    ReadOnly,
    Writable,
    Hide,
    Show,
}

/// A command that edits a document.
#[derive(Debug, Drop)]
pub enum Edit {
    /// `new TYPE NAME`: adds an object, its label the same as its name.
    New {
        type_name: EditText,
        name: EditText,
    },
    /// `delete NAME`: removes an object.
    Delete {
        name: EditText,
    },
    /// `add NAME TYPE PROP`: adds a dynamic property with zero in it.
    Add {
        owner: EditText,
        type_name: EditText,
        name: EditText,
    },
    /// `drop NAME.PROP`: removes a dynamic property.
    DropProperty {
        path: Path,
    },
    /// `set PATH EXPR`: gives a slot the value of a closed expression.
    SetValue {
        path: Path,
        expr: EditText,
    },
    /// `bind PATH EXPR`: binds a slot to an expression.
    Bind {
        path: Path,
        expr: EditText,
    },
    /// `unbind PATH`: gives a bound slot its outcome for its own value.
    Unbind {
        path: Path,
    },
    /// `relabel NAME <<LABEL>>`: gives an object another label. `label` is the text between the marks.
    Relabel {
        name: EditText,
        label: EditText,
    },
    /// `rename NAME.PROP NEW`: gives a dynamic property another name.
    Rename {
        path: Path,
        new: EditText,
    },
    /// `status NAME.PROP ro`, and `rw`, `hide`, `show`: changes the status of a dynamic property.
    SetStatus {
        path: Path,
        change: StatusChange,
    },
    /// `cell SHEET ADDR CONTENT`: gives a cell another content.
    SetCell {
        sheet: EditText,
        at: Address,
        content: EditText,
    },
    /// `clear SHEET ADDR`: takes a cell with all that is kept of it.
    ClearCell {
        sheet: EditText,
        at: Address,
    },
    /// `alias SHEET ADDR NAME`: gives a cell an alias, or renames the one that it has.
    GiveAlias {
        sheet: EditText,
        at: Address,
        name: EditText,
    },
    /// `unalias SHEET ADDR`: takes the alias of a cell.
    TakeAlias {
        sheet: EditText,
        at: Address,
    },
    /// `insertrows SHEET ROW N`: the cells from that row on move down by so many.
    InsertRows {
        sheet: EditText,
        row: u16,
        count: u16,
    },
    /// `insertcols SHEET COL N`: the cells from that column on move right by so many.
    InsertColumns {
        sheet: EditText,
        column: u16,
        count: u16,
    },
    /// `removerows SHEET ROW N`: so many rows go.
    RemoveRows {
        sheet: EditText,
        row: u16,
        count: u16,
    },
    /// `removecols SHEET COL N`: so many columns go.
    RemoveColumns {
        sheet: EditText,
        column: u16,
        count: u16,
    },
    /// `move SHEET AREA ADDR`: the cells of a block move, to a new corner on the left and above.
    MoveBlock {
        sheet: EditText,
        area: Area,
        to: Address,
    },
    /// `target LINK NAME`: gives a link a target.
    SetTarget {
        link: EditText,
        name: EditText,
    },
    /// `members COMPOUND NAME NAME`: gives a compound its members, any number of them.
    SetMembers {
        compound: EditText,
        names: EditTexts,
    },
    /// `revert PATH`: takes an override of a link away.
    Revert {
        path: Path,
    },
}
