//! The replies of a run, as they are printed.
ghost use Rattle.std.specs.Prelude.{◌≡◌};

use kt_base::Kind;
use kt_history::Reply;
use std::marker::Model;

/// The kinds of the columns that a scan shows. Contracts see it as a list.
#[derive(Drop)]
pub struct KindList {
    kinds: Vec<Kind>,
}

impl Model for KindList {
    ghost use Rattle.std.specs.Prelude.{List};
    ghost use Rattle.kt_base.specs.declared.cell.Kind.{Kind};

    ghost Value = { List Kind };

    ghost view = { λ l. l.kinds.items };
}

impl KindList {
    /// The kinds of a vector, which takes no memory.
    pub fn of(kinds: Vec<Kind>) -> KindList
        ensures { result ≡ kinds.items }
    {
        KindList { kinds }
    }

    pub fn as_slice(&self) -> &[Kind]
        ensures { result.now ≡ self.now }
    {
        &self.kinds
    }
}

/// A reply, and the kinds of the columns under which its rows are printed.
#[derive(Drop)]
pub struct ShownReply {
    pub kinds: KindList,
    pub reply: Reply,
}

/// The replies of one session. Contracts see them as a list.
#[derive(Drop)]
pub struct ReplyList {
    replies: Vec<ShownReply>,
}

impl Model for ReplyList {
    ghost use Rattle.std.specs.Prelude.{List};
    ghost use Rattle.kt_script.specs.declared.lists.ShownReply.{ShownReply};

    ghost Value = { List ShownReply };

    ghost view = { λ l. l.replies.items };
}

impl ReplyList {
    /// The replies of a vector, which takes no memory.
    pub fn of(replies: Vec<ShownReply>) -> ReplyList
        ensures { result ≡ replies.items }
    {
        ReplyList { replies }
    }

    pub fn as_slice(&self) -> &[ShownReply]
        ensures { result.now ≡ self.now }
    {
        &self.replies
    }
}

/// The replies of every session. Contracts see them as one list of replies per session.
#[derive(Drop)]
pub struct ReplyLists {
    sessions: Vec<ReplyList>,
}

impl Model for ReplyLists {
    ghost use Rattle.std.specs.Prelude.{List};
    ghost use Rattle.kt_script.specs.declared.lists.ShownReply.{ShownReply};

    ghost Value = { List (List ShownReply) };

    ghost view = { λ l. l.sessions.items };
}

impl ReplyLists {
    /// The sessions of a vector, which takes no memory.
    pub fn of(sessions: Vec<ReplyList>) -> ReplyLists
        ensures { result ≡ sessions.items }
    {
        ReplyLists { sessions }
    }

    pub fn as_slice(&self) -> &[ReplyList]
        ensures { result.now ≡ self.now }
    {
        &self.sessions
    }
}
