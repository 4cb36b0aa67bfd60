//! Why a message was not put.
ghost use Rattle.std.specs.Prelude.{◌≡◌};
ghost use Rattle.lru_mailbox.specs.Mail.{number_of};

/// Why a message was not put. It hands the message back.
#[derive(Debug, Drop)]
pub enum MailError<M> {
    /// Number 1: there was no memory for one more message.
    Memory(M),
    /// Number 2: the mailbox is closed.
    Closed(M),
    /// Number 3: a message of the kind of which one may wait is waiting.
    Waiting(M),
}

impl<M> MailError<M> {
    /// The number of this refusal.
    pub fn number(&self) -> u8
        ensures { result ≡ number_of self.now }
    {
        match self {
            MailError::Memory(_) => 1,
            MailError::Closed(_) => 2,
            MailError::Waiting(_) => 3,
        }
    }
}
