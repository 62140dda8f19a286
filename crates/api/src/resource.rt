ghost use Rattle.std.specs.Prelude.{◌≡◌};
ghost use Rattle.api.specs.Calls.{method_of, own_method};

/// A method of a request (RFC 9110, section 9.3).
#[derive(Debug, Clone, Copy, PartialEq, Eq)]
pub enum Method {
    /// A question, which changes nothing.
    Get,
    /// A command.
    Post,
}

/// A row of the route table.
#[derive(Debug, Clone, Copy, PartialEq, Eq)]
pub enum Resource {
    /// The arena as a whole.
    Arena,
    /// A page of the table.
    Standing,
    /// The table of the teams.
    Teams,
    /// A game.
    Game,
    /// Entries of the journal.
    Journal,
    /// What is about the caller himself, for which a key is needed.
    Own(OwnResource),
}

/// A row of the route table that is about the caller himself.
#[derive(Debug, Clone, Copy, PartialEq, Eq)]
pub enum OwnResource {
    /// Where he is and what he has.
    Me,
    Enter,
    Pause,
    Leave,
    /// A move in a game.
    Move,
    /// A draw that is offered, accepted or declined in a game.
    Draw,
    Resign,
    Claim,
    Berserk,
}

impl Resource {
    /// The method with which the row is asked for.
    pub fn method(self) -> Method
        ensures { result ≡ method_of self }
    {
        match self {
            Resource::Arena
            | Resource::Standing
            | Resource::Teams
            | Resource::Game
            | Resource::Journal => Method::Get,
            Resource::Own(own) => own.method(),
        }
    }
}

impl OwnResource {
    /// The method with which the row is asked for.
    pub fn method(self) -> Method
        ensures { result ≡ own_method self }
    {
        match self {
            OwnResource::Me => Method::Get,
            OwnResource::Enter
            | OwnResource::Pause
            | OwnResource::Leave
            | OwnResource::Move
            | OwnResource::Draw
            | OwnResource::Resign
            | OwnResource::Claim
            | OwnResource::Berserk => Method::Post,
        }
    }
}
