// What becomes of an order: it is delivered as a batch of one request would be, and the answer is noted on the way.
ghost use Rattle.std.specs.Prelude.{◌≡◌, [], ◌∷◌, Some};
ghost use Rattle.window.specs.Deliveries.{delivered};
ghost use Rattle.orders.specs.Outcomes.{why_passed, outcome_of};

use application::codes::{DONE, Reject};
use application::interface::Application;
use std::fmt;
use window::delivery::deliver;
use window::windows::Windows;
use wire::records::Request;

#[derive(Clone, Copy, Debug, PartialEq, Eq)]
pub enum Passed {
    NoClient,
    Outside,
    Marked,
}

impl fmt::Display for Passed {
    fn fmt<W: fmt::Write>(&self, f: &mut fmt::Formatter<W>) -> fmt::Result {
        f.write_str(match self {
            Passed::NoClient => "no such client",
            Passed::Outside => "the timestamp is outside the window",
            Passed::Marked => "the timestamp is marked already",
        })
    }
}

// No `Result`: to be passed over is no error.
#[derive(Clone, Copy, Debug, PartialEq, Eq)]
pub enum Outcome {
    Answered(u8),
    PassedOver(Passed),
}

impl fmt::Display for Outcome {
    fn fmt<W: fmt::Write>(&self, f: &mut fmt::Formatter<W>) -> fmt::Result {
        match *self {
            Outcome::Answered(DONE) => f.write_str("done"),
            Outcome::Answered(code) => match Reject::try_from(code) {
                Ok(reject) => write!(f, "code {code}: {reject}"),
                Err(none) => write!(f, "{none}"),
            },
            Outcome::PassedOver(why) => write!(f, "passed over: {why}"),
        }
    }
}

// An application, and how it answered the last order.
#[derive(Drop)]
pub struct Noted<P> {
    pub app: P,
    pub answer: Option<u8>,
}

impl<P: Application> Application for Noted<P> {
    ghost next = { λ n client timestamp payload. record { app = P.Application.next n.app client timestamp payload; answer = Some (P.Application.code n.app client timestamp payload) } };

    ghost code = { λ n client timestamp payload. P.Application.code n.app client timestamp payload };

    ghost marked = { λ n. P.Application.marked n.app };

    fn apply(&mut self, client: u8, timestamp: u32, payload: u64) -> u8 {
        let code = self.app.apply(client, timestamp, payload);
        self.answer = Some(code);
        code
    }

    fn mark(&self) -> u64 {
        self.app.mark()
    }
}

// Why the windows would pass over a request that they do not admit. Up to the base every timestamp but 0 is marked.
fn why_passed(windows: &Windows, client: u8, timestamp: u32) -> Passed
    ensures { result ≡ why_passed windows.now client timestamp }
{
    let Some(window) = windows.window(client) else {
        return Passed::NoClient;
    };
    if timestamp == 0 || timestamp.saturating_sub(window.base()) > 64 {
        return Passed::Outside;
    }
    Passed::Marked
}

impl<P: Application> Noted<P> {
    pub(crate) fn serve(&mut self, windows: &mut Windows, request: Request) -> Outcome
        ensures value { result ≡ outcome_of (P.code self.old.app request.client request.timestamp request.payload) windows.old request }
        ensures app { self.new.app ≡ (delivered P.next self.old.app windows.old (request ∷ [])).app }
        ensures windows { windows.new ≡ (delivered P.next self.old.app windows.old (request ∷ [])).windows }
    {
        let why = why_passed(windows, request.client, request.timestamp);
        self.answer = None;
        deliver(self, windows, &[request]);
        self.answer
            .map_or(Outcome::PassedOver(why), Outcome::Answered)
    }
}
