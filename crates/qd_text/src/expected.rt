//! What may stand at a place of a document, for its refusal.

ghost use Rattle.std.specs.Prelude.{◌≡◌};
ghost use Rattle.qd_text.specs.Words.{word_of};

/// What may stand where another token, or the end, was met.
#[derive(Clone, Copy, Debug, PartialEq, Eq, Hash)]
pub enum Expected {
    /// The word `qdouble`.
    Qdouble,
    /// The version, `1`.
    One,
    /// The word `order`.
    Order,
    /// A natural number.
    Number,
    /// The word `table`.
    Table,
    /// The word `roots`.
    Roots,
    /// The word `omega`.
    Omega,
    /// The form of the exponents: `trivial`, `dense` or `sparse`.
    Form,
    /// An element: a natural number below the order.
    Element,
    /// The word `characters`.
    Characters,
    /// An entry of the table of conductors.
    Conductor,
    /// The text of a value.
    Value,
    /// The word `end`.
    End,
    /// The end of the text.
    Nothing,
}

impl Expected {
    /// The word that stands for it in the line of a refusal.
    pub fn text(&self) -> &'static str
        ensures word { result.now ≡ word_of self.now }
    {
        match self {
            Expected::Qdouble => "qdouble",
            Expected::One => "1",
            Expected::Order => "order",
            Expected::Number => "number",
            Expected::Table => "table",
            Expected::Roots => "roots",
            Expected::Omega => "omega",
            Expected::Form => "form",
            Expected::Element => "element",
            Expected::Characters => "characters",
            Expected::Conductor => "conductor",
            Expected::Value => "value",
            Expected::End => "end",
            Expected::Nothing => "nothing",
        }
    }
}
