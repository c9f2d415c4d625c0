// A house that is open: its controllers, the places of the outbox that each is lent, and the roll.
use crate::account::Account;
use crate::choices::{AnyApplication, AnyDigest};
use crate::fault::{LineFault, Wrong};
use crate::line::{Asked, Call, Opening};
use crate::shown::{ControllerLine, PlaceLine, Reply, WindowLine, show};
use controller::controller::Controller;
use house::members::Members;
use house::opening::OpenFault;
use protocol::records::Answer;
use protocol::refusal::Refusal;
use seal::roll::Roll;
use std::alloc::Global;
use wire::kinds::Kind;
use wire::records::{DigestValue, Sealed, Statement};

// A call asks for so many places and fills no more, so a larger outbox is lent as one of this size.
const ENOUGH_PLACES: usize = 400;

const BLANK: Sealed = Sealed {
    statement: Statement {
        kind: Kind::Unknown(0),
        signer: 0,
        epoch: 0,
        number: 0,
        held: 0,
        digest: DigestValue { word: 0 },
    },
    seal: 0,
};

#[derive(Drop)]
pub struct Session {
    members: Members<AnyDigest, AnyApplication>,
    // for each controller
    places: [usize; 16],
    roll: Roll,
}

impl Session {
    // A house of new controllers and an empty roll.
    pub(crate) fn open(heap: Global, opening: &Opening) -> Result<Session, OpenFault> {
        Ok(Session {
            members: Members::open(heap, opening.n, opening.digest, opening.application)?,
            places: [ENOUGH_PLACES; 16],
            roll: Roll::new(heap),
        })
    }

    pub(crate) fn len(&self) -> usize {
        self.members.len()
    }

    fn make_call(
        &mut self,
        i: usize,
        call: &Call,
        outbox: &mut [Sealed],
    ) -> Option<Result<Answer, Refusal>> {
        let Session { members, roll, .. } = self;
        match call {
            Call::Offer(proposal, batch) => {
                members.offer(i, roll, proposal, batch.as_slice(), outbox)
            }
            Call::Vote(vote) => members.vote(i, roll, vote, outbox),
            Call::Supply(number, batch) => members.supply(i, *number, batch.as_slice(), outbox),
            Call::Prove(number, batch, commits) => {
                let commits = commits.as_slice();
                members.prove(i, roll, *number, batch.as_slice(), commits, outbox)
            }
            Call::GiveUp => members.give_up(i, outbox),
            Call::Enter(new, records) => members.enter(i, roll, new, records.as_slice(), outbox),
            Call::Turn => members.turn(i, outbox),
        }
    }

    fn call<'a>(
        &mut self,
        account: &mut Account,
        i: usize,
        call: &Call,
        outbox: &'a mut [Sealed],
    ) -> Result<Reply<'a>, LineFault> {
        let result = self.make_call(i, call, outbox).ok_or(Wrong::Controller)?;
        account.count(&result);
        let answer = result?;
        let sent = answer
            .issued
            .saturating_add(answer.forwarded)
            .min(outbox.len());
        Ok(Reply {
            answer,
            sent: &outbox[..sent],
        })
    }

    fn member(&self, i: usize) -> Result<&Controller<AnyDigest, AnyApplication>, Wrong> {
        self.members.member(i).ok_or(Wrong::Controller)
    }

    fn controller(&self, i: usize) -> Result<ControllerLine<'_>, LineFault> {
        let member = self.member(i)?;
        Ok(ControllerLine { i, member })
    }

    fn window(&self, i: usize, client: u8) -> Result<WindowLine, LineFault> {
        let window = self.member(i)?.window(client).ok_or(Wrong::Client)?;
        Ok(WindowLine { i, client, window })
    }

    fn place(&self, i: usize, number: u64) -> Result<PlaceLine<'_>, LineFault> {
        let place = self.member(i)?.place(number).ok_or(Wrong::Outside)?;
        Ok(PlaceLine { i, number, place })
    }

    pub(crate) fn take(
        &mut self,
        rt: &HostRuntime,
        account: &mut Account,
        asked: Asked,
    ) -> anyhow::Result<()> {
        match asked {
            Asked::Genuine(sealed) => {
                self.roll.add(sealed)?;
                println!(rt; "roll {}", self.roll.len())?;
            }
            Asked::Call(i, call) => {
                let places = self.places.get(i).copied().unwrap_or(0);
                let mut outbox = vec![in rt.alloc(); BLANK; places]?;
                show(rt, self.call(account, i, &call, outbox.as_mut_slice()))?;
            }
            Asked::Outbox(i, places) => {
                if let Some(lent) = self.places.get_mut(i) {
                    *lent = places.min(ENOUGH_PLACES as u64) as usize;
                }
                println!(rt; "outbox {i} {places}")?;
            }
            Asked::Show(i) => show(rt, self.controller(i))?,
            Asked::Window(i, client) => show(rt, self.window(i, client))?,
            Asked::Batch(i, number) => show(rt, self.place(i, number))?,
        }
        Ok(())
    }

    pub(crate) fn show_all(&self, rt: &HostRuntime) -> anyhow::Result<()> {
        // a house lends its controllers by their numbers alone
        for i in 0..self.len() {
            show(rt, self.controller(i))?;
        }
        Ok(())
    }
}
