//! The keywords and symbols of the grammar, as one enumeration.

/// A keyword or a symbol of the grammar. Their numbers follow the order of this list.
#[derive(Clone, Copy)]
pub enum Mark {
    /// `package`
    Package,
    /// `public`
    Public,
    /// `with`
    With,
    /// `end`
    End,
    /// `system`
    System,
    /// `process`
    Process,
    /// `thread`
    Thread,
    /// `features`
    Features,
    /// `properties`
    Properties,
    /// `implementation`
    Implementation,
    /// `subcomponents`
    Subcomponents,
    /// `connections`
    Connections,
    /// `none`
    Nothing,
    /// `in`
    In,
    /// `out`
    Out,
    /// `data`
    Data,
    /// `port`
    Port,
    /// `annex`
    Annex,
    /// `constant`
    Constant,
    /// `applies`
    Applies,
    /// `to`
    To,
    /// `reference`
    Reference,
    /// `classifier`
    Classifier,
    /// `variables`
    Variables,
    /// `states`
    States,
    /// `transitions`
    Transitions,
    /// `initial`
    Initial,
    /// `complete`
    Complete,
    /// `state`
    State,
    /// `on`
    On,
    /// `dispatch`
    Dispatch,
    /// `otherwise`
    Otherwise,
    /// `if`
    If,
    /// `elsif`
    Elsif,
    /// `else`
    Else,
    /// `for`
    For,
    /// `and`
    And,
    /// `or`
    Or,
    /// `xor`
    Xor,
    /// `then`
    Then,
    /// `mod`
    Mod,
    /// `rem`
    Rem,
    /// `abs`
    Abs,
    /// `not`
    Not,
    /// `true`
    True,
    /// `false`
    False,
    /// `fresh`
    Fresh,
    /// `;`
    Semicolon,
    /// `:`
    Colon,
    /// `,`
    Comma,
    /// `.`
    Dot,
    /// `..`
    Range,
    /// `::`
    Scope,
    /// `=>`
    Becomes,
    /// `+=>`
    Appends,
    /// `->`
    Arrow,
    /// `-[`
    GuardOpen,
    /// `]->`
    GuardClose,
    /// `{`
    BraceOpen,
    /// `}`
    BraceClose,
    /// `(`
    ParenOpen,
    /// `)`
    ParenClose,
    /// `[`
    BracketOpen,
    /// `]`
    BracketClose,
    /// `+`
    Plus,
    /// `-`
    Minus,
    /// `*`
    Star,
    /// `/`
    Slash,
    /// `=`
    Equal,
    /// `!=`
    NotEqual,
    /// `<`
    Less,
    /// `<=`
    LessOrEqual,
    /// `>`
    Greater,
    /// `>=`
    GreaterOrEqual,
    /// `:=`
    Assign,
    /// `!`
    Bang,
    /// `'`
    Tick,
    /// `{**`
    AnnexOpen,
    /// `**}`
    AnnexClose,
}
