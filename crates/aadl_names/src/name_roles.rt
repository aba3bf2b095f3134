//! What a name stands for in a behaviour, and how it may be used.
ghost use Rattle.std.specs.Prelude.{◌≡◌};
ghost use Rattle.aadl_names.specs.NameUseFaults as spec;

/// What a name stands for.
#[derive(Clone, Copy)]
pub enum Role {
    /// An in port.
    Receives,
    /// An out port.
    Gives,
    /// A variable.
    Varies,
    /// The variable of a loop.
    Turns,
}

impl Role {
    /// Whether it may be assigned to: a variable, or an out port.
    pub fn may_set(self) -> bool
        ensures { result ≡ spec.may_set self }
    {
        match self {
            Role::Gives | Role::Varies => true,
            Role::Receives | Role::Turns => false,
        }
    }

    /// Whether it may be sent on: an out port.
    pub fn may_send(self) -> bool
        ensures { result ≡ spec.may_send self }
    {
        match self {
            Role::Gives => true,
            Role::Receives | Role::Varies | Role::Turns => false,
        }
    }

    /// Whether it may be read: all but an out port.
    pub fn may_read(self) -> bool
        ensures { result ≡ spec.may_read self }
    {
        match self {
            Role::Receives | Role::Varies | Role::Turns => true,
            Role::Gives => false,
        }
    }

    /// Whether it may be asked for a fresh value: an in port.
    pub fn may_be_fresh(self) -> bool
        ensures { result ≡ spec.may_be_fresh self }
    {
        match self {
            Role::Receives => true,
            Role::Gives | Role::Varies | Role::Turns => false,
        }
    }
}

/// How a name is used.
#[derive(Clone, Copy)]
pub enum Usage {
    /// It is assigned to.
    Set,
    /// Something is sent on it.
    Send,
    /// It is read.
    Read,
    /// It is asked for a fresh value.
    Fresh,
}

impl Usage {
    /// Whether a name of this role may be used so.
    pub fn allows(self, role: Role) -> bool
        ensures { result ≡ spec.allows self role }
    {
        match self {
            Usage::Set => role.may_set(),
            Usage::Send => role.may_send(),
            Usage::Read => role.may_read(),
            Usage::Fresh => role.may_be_fresh(),
        }
    }
}
