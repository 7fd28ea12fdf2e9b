ghost use Rattle.std.specs.Prelude.{◌≡◌, ◌<◌, List, Some, map, length, slice_get};
ghost use Rattle.client_core.specs.Clients.{ClientState, Told, told_of};

use crate::{Client, Outcome};
use fb_bytes::Seq;
use std::marker::Model;
use workload_text::ClientScript;

/// The scripts of all clients and what became of their tries, in the order of their numbers.
#[derive(Debug, Drop)]
pub struct Outcomes {
    clients: Vec<Client>,
}

impl Model for Outcomes {
    ghost use Rattle.std.specs.Prelude.{List, map};
    ghost use Rattle.client_core.specs.Clients.{Told, told_of};

    ghost Value = { List Told };

    ghost view = { λ o. map told_of o.clients.items };
}

impl Outcomes {
    /// What these clients have to tell, with no copy.
    pub fn from_clients(clients: Vec<Client>) -> Self
        ensures { result ≡ map told_of clients.items }
    {
        Outcomes { clients }
    }

    /// How many clients there are.
    pub fn len(&self) -> usize
        ensures { result ≡ length self.now }
    {
        self.clients.len()
    }

    /// The script of the client at an index, from 0, and its outcomes.
    pub fn get(&self, index: usize) -> (&ClientScript, &Seq<Outcome>)
        requires { index < length self.now }
        ensures { slice_get self.now index
            ≡ Some (record { script = result.0.now; outcomes = result.1.now }) }
    {
        let client = &self.clients[index];
        (client.script(), client.outcomes())
    }
}
