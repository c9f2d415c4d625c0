// What a house is opened with: one of the applications and one of the digests, each by its name.
ghost use Rattle.replay.specs.declared.choices.AnyApplication.TheVariants.{Tanks, Valves};
ghost use Rattle.replay.specs.declared.choices.AnyDigest.TheVariants.{Fnv, Sha256};

use crate::fault::Wrong;
use application::interface::Application;
use digest::fnv::Fnv1a;
use digest::interface::Digest;
use digest::truncated::Sha256;
use std::str::FromStr;
use tanks::state::Tanks;
use valves::state::Valves;
use wire::records::DigestValue;

#[derive(Clone, Copy)]
pub enum AnyDigest {
    Fnv(Fnv1a),
    Sha256(Sha256),
}

impl FromStr for AnyDigest {
    type Err = Wrong;

    fn from_str(name: &str) -> Result<AnyDigest, Wrong> {
        match name {
            "fnv" => Ok(AnyDigest::Fnv(Fnv1a)),
            "sha256" => Ok(AnyDigest::Sha256(Sha256)),
            _ => Err(Wrong::Digest),
        }
    }
}

impl Digest for AnyDigest {
    ghost value = { elim [ Fnv d ↦ ⟦<Fnv1a as Digest>⟧.value d | Sha256 d ↦ ⟦<Sha256 as Digest>⟧.value d ] };

    fn digest(&self, bytes: &[u8]) -> DigestValue {
        match self {
            AnyDigest::Fnv(fnv) => fnv.digest(bytes),
            AnyDigest::Sha256(sha256) => sha256.digest(bytes),
        }
    }
}

#[derive(Clone, Copy)]
pub enum AnyApplication {
    Tanks(Tanks),
    Valves(Valves),
}

// At its start.
impl FromStr for AnyApplication {
    type Err = Wrong;

    fn from_str(name: &str) -> Result<AnyApplication, Wrong> {
        match name {
            "tanks" => Ok(AnyApplication::Tanks(Tanks::new())),
            "valves" => Ok(AnyApplication::Valves(Valves::new())),
            _ => Err(Wrong::Application),
        }
    }
}

impl Application for AnyApplication {
    ghost next = { elim [ Tanks a ↦ λ client timestamp payload. Tanks (⟦<Tanks as Application>⟧.next a client timestamp payload) | Valves a ↦ λ client timestamp payload. Valves (⟦<Valves as Application>⟧.next a client timestamp payload) ] };

    ghost code = { elim [ Tanks a ↦ ⟦<Tanks as Application>⟧.code a | Valves a ↦ ⟦<Valves as Application>⟧.code a ] };

    ghost marked = { elim [ Tanks a ↦ ⟦<Tanks as Application>⟧.marked a | Valves a ↦ ⟦<Valves as Application>⟧.marked a ] };

    fn apply(&mut self, client: u8, timestamp: u32, payload: u64) -> u8 {
        match self {
            AnyApplication::Tanks(tanks) => tanks.apply(client, timestamp, payload),
            AnyApplication::Valves(valves) => valves.apply(client, timestamp, payload),
        }
    }

    fn mark(&self) -> u64 {
        match self {
            AnyApplication::Tanks(tanks) => tanks.mark(),
            AnyApplication::Valves(valves) => valves.mark(),
        }
    }
}
