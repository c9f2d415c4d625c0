// The delivery of requests: each is applied and marked, or passed over.
ghost use Rattle.std.specs.Prelude.{◌≡◌, if◌then◌else◌};
ghost use Rattle.window.specs.Clients.{admits, marks};
ghost use Rattle.window.specs.Deliveries.{delivered};

use crate::windows::Windows;
use application::interface::Application;
use wire::records::Request;

// How many requests were applied, whatever code they were answered with, and how many passed over.
#[derive(Clone, Copy)]
pub struct Tally {
    pub applied: usize,
    pub passed: usize,
}

// Applies and marks one request, or passes it over and says so by false.
fn take<P: Application>(app: &mut P, windows: &mut Windows, q: Request) -> bool
    ensures value { result ≡ admits windows.old q.client q.timestamp }
    ensures app { app.new ≡ (if result then P.next app.old q.client q.timestamp q.payload else app.old) }
    ensures windows { windows.new ≡ (if result then marks windows.old q.client q.timestamp else windows.old) }
{
    if !windows.admits(q.client, q.timestamp) {
        return false;
    }
    app.apply(q.client, q.timestamp, q.payload);
    windows.mark(q.client, q.timestamp);
    true
}

// Each request is judged by the windows as the one before it left them.
pub fn deliver<P: Application>(app: &mut P, windows: &mut Windows, requests: &[Request]) -> Tally
    ensures { record { app = app.new; windows = windows.new; applied = result.applied; passed = result.passed } ≡ delivered P.next app.old windows.old requests.now }
{
    let mut applied = 0;
    let mut passed = 0;
    for q in requests {
        if take(app, windows, *q) {
            applied += 1;
        } else {
            passed += 1;
        }
    }
    Tally { applied, passed }
}
