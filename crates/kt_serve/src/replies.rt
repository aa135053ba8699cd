//! The replies of a session.
ghost use Rattle.std.specs.Prelude.{◌≡◌, []};

use kt_history::Reply;
use std::alloc::Global;
use std::marker::Model;

/// The replies of one session, in the order of its commands. Contracts see them as a list.
#[derive(Drop)]
pub struct SessionReplies {
    replies: Vec<Reply>,
}

impl Model for SessionReplies {
    ghost use Rattle.std.specs.Prelude.{List};
    ghost use Rattle.kt_history.specs.declared.reply.Reply.{Reply};

    ghost Value = { List Reply };

    ghost view = { λ s. s.replies.items };
}

impl SessionReplies {
    /// No reply yet, which takes no memory.
    pub fn none(alloc: Global) -> SessionReplies
        ensures { result ≡ [] }
    {
        SessionReplies {
            replies: Vec::new(alloc),
        }
    }

    /// The replies of a vector, which takes no memory.
    pub fn of(replies: Vec<Reply>) -> SessionReplies
        ensures { result ≡ replies.items }
    {
        SessionReplies { replies }
    }

    pub fn as_slice(&self) -> &[Reply]
        ensures { result.now ≡ self.now }
    {
        &self.replies
    }

    /// The replies as a vector, which takes no memory.
    pub fn into_vec(self) -> Vec<Reply>
        ensures { result.items ≡ self }
    {
        let SessionReplies { replies } = self;
        replies
    }
}
