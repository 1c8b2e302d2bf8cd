//! Whose each entry of a history is, and which call it makes: all that a count looks at.
ghost use Rattle.std.specs.Prelude.{◌≡◌, List};
ghost use Rattle.gmp_history.specs.Heads.{kind_of};

use crate::brief::{CallKind, Row};
use gmp_base::MNo;
use gmp_seq::Call;
use std::marker::Model;

/// Whose an entry is, and which call it makes.
#[derive(Clone, Copy)]
pub struct Head {
    pub m: MNo,
    pub call: CallKind,
}

/// The heads that are left. A contract sees the list of them. No entry is made whole for one, so a select's cases are not copied.
#[derive(Drop)]
pub struct Heads<'a> {
    pub(crate) rows: &'a [Row],
}

impl<'a> Model for Heads<'a> {
    ghost use Rattle.std.specs.Prelude.{List, map};
    ghost use Rattle.gmp_history.specs.declared.heads.Head.{Head};
    ghost use Rattle.gmp_history.specs.Brief.{row_head};

    ghost Value = { List Head };

    ghost view = { λ h. map row_head h.rows.now };
}

impl<'a> Iterator for Heads<'a> {
    ghost use Rattle.std.specs.Iterator.{YieldsFirst, item_count};
    ghost use Rattle.gmp_history.specs.declared.heads.Head.{Head};

    type Item = Head;

    ghost next_gives = { YieldsFirst (λ (left : List Head). left) };

    ghost remaining = { item_count (λ (left : List Head). left) };

    #[inline(always)]
    fn next(&mut self) -> Option<Head> {
        let (first, others) = self.rows.split_first()?;
        self.rows = others;
        Some(Head {
            m: first.m,
            call: first.call,
        })
    }
}

impl CallKind {
    /// The kind of this call.
    pub fn of(call: &Call) -> Self
        ensures { result ≡ kind_of call.now }
    {
        match call {
            Call::Acquire => CallKind::Acquire,
            Call::Take => CallKind::Take,
            Call::Put(_) => CallKind::Put,
            Call::Claim(_) => CallKind::Claim,
            Call::Go(_) => CallKind::Go,
            Call::Spawn => CallKind::Spawn,
            Call::Yield => CallKind::Yield,
            Call::Exit => CallKind::Exit,
            Call::Make(_) => CallKind::Make,
            Call::Send(Some(_), _) => CallKind::Send,
            Call::Send(None, _) => CallKind::SendNil,
            Call::Recv(Some(_)) => CallKind::Recv,
            Call::Recv(None) => CallKind::RecvNil,
            Call::Close(Some(_)) => CallKind::Close,
            Call::Close(None) => CallKind::CloseNil,
            Call::Len(Some(_)) => CallKind::Len,
            Call::Len(None) => CallKind::LenNil,
            Call::Cap(Some(_)) => CallKind::Cap,
            Call::Cap(None) => CallKind::CapNil,
            Call::Select(..) => CallKind::Select,
            Call::Sleep(_) => CallKind::Sleep,
            Call::Procs(_) => CallKind::Procs,
            Call::Gopark => CallKind::Gopark,
            Call::Ready(_) => CallKind::Ready,
            Call::Enter => CallKind::Enter,
            Call::Leave(_) => CallKind::Leave,
            Call::Spin => CallKind::Spin,
            Call::Woken => CallKind::Woken,
            Call::Keep => CallKind::Keep,
            Call::Unspin => CallKind::Unspin,
            Call::Poke => CallKind::Poke,
            Call::Declare => CallKind::Declare,
            Call::Bare => CallKind::Bare,
            Call::Park => CallKind::Park,
            Call::Tick(_) => CallKind::Tick,
        }
    }
}
