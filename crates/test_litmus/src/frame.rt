//! What stands round the texts of rows.

use std::alloc::{AllocError, Global};

/// What stands before and after a text.
#[derive(Clone, Copy)]
pub struct Frame {
    before: &'static str,
    after: &'static str,
}

/// What a row says of its text, and what stands round it, and round what is printed.
#[derive(Clone, Copy)]
pub enum Kind {
    /// It reads, or is refused so.
    Reads(Frame),
    /// It is printed so, and that reads back as the same program.
    Prints(Frame, Frame),
    /// The statements with an access are of these kinds, in their order.
    Sites(Frame),
    /// The accesses of its sites begin at these lines and columns.
    Places(Frame),
    /// It is refused there, for this reason.
    Offends(Frame),
    /// Of the refusal this is said.
    Says(Frame),
}

impl Frame {
    /// The text in its frame.
    pub fn round(&self, alloc: Global, text: &str) -> Result<String, AllocError> {
        let mut whole = String::from_str(alloc, self.before)?;
        whole.push_str(text)?;
        whole.push_str(self.after)?;
        Ok(whole)
    }
}

/// A whole text.
const WHOLE: Frame = Frame {
    before: "",
    after: "",
};

/// The body of a process, which begins on line 5.
const BODY: Frame = Frame {
    before: "C t\n{}\nP0(int *x, int *y, atomic_t *a, spinlock_t *l, char *c)\n{\n",
    after: "\n}\nexists (true)\n",
};

/// The lines of that body.
const LINES: Frame = Frame {
    before: "C t\n{ int x = 0; int y = 0; atomic_t a = 0; spinlock_t l; char c = 0; }\nP0(int *x, int *y, atomic_t *a, spinlock_t *l, char *c)\n{\n",
    after: "}\nexists true\n",
};

/// An expression that `r0` is given.
const EXPRESSION: Frame = Frame {
    before: "C t\n{}P0(int *x){r0 = ",
    after: ";}exists true",
};

/// That expression, printed.
const VALUE: Frame = Frame {
    before: "C t\n{ int x = 0; }\nP0(int *x)\n{\n\tint r0;\n\tr0 = ",
    after: ";\n}\nexists true\n",
};

/// The initialization block, which is on line 2.
const ITEMS: Frame = Frame {
    before: "C t\n{",
    after: "}\nP0()\n{\n}\nexists (true)\n",
};

/// The parameters of a process, which are on line 3.
const PARAMETERS: Frame = Frame {
    before: "C t\n{}\nP0(",
    after: ")\n{\n}\nexists (true)\n",
};

/// The condition, which begins on line 4.
const CONDITION: Frame = Frame {
    before: "C t\n{ int z; }\nP0(int *x, spinlock_t *l) { int r0; }\n",
    after: "",
};

/// The kind of rows that begin with a word.
pub fn kind_of(word: &str) -> Option<Kind> {
    match word {
        "text" => Some(Kind::Reads(WHOLE)),
        "body" => Some(Kind::Reads(BODY)),
        "items" => Some(Kind::Reads(ITEMS)),
        "parameters" => Some(Kind::Reads(PARAMETERS)),
        "condition" => Some(Kind::Reads(CONDITION)),
        "program" => Some(Kind::Prints(WHOLE, WHOLE)),
        "statements" => Some(Kind::Prints(BODY, LINES)),
        "expression" => Some(Kind::Prints(EXPRESSION, VALUE)),
        "sites" => Some(Kind::Sites(BODY)),
        "places" => Some(Kind::Places(BODY)),
        "places_in_text" => Some(Kind::Places(WHOLE)),
        "text_offends" => Some(Kind::Offends(WHOLE)),
        "body_offends" => Some(Kind::Offends(BODY)),
        "items_offend" => Some(Kind::Offends(ITEMS)),
        "parameters_offend" => Some(Kind::Offends(PARAMETERS)),
        "condition_offends" => Some(Kind::Offends(CONDITION)),
        "text_says" => Some(Kind::Says(WHOLE)),
        "body_says" => Some(Kind::Says(BODY)),
        "items_say" => Some(Kind::Says(ITEMS)),
        "parameters_say" => Some(Kind::Says(PARAMETERS)),
        "condition_says" => Some(Kind::Says(CONDITION)),
        _ => None,
    }
}
