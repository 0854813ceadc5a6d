ghost use Rattle.std.specs.Prelude.{◌≡◌, OnOk, option_map};
ghost use Rattle.matchit.specs.Order.{placed};
ghost use Rattle.desk_http.specs.Endpoints.{literal_row, row_at, router_rows};
ghost use Rattle.desk_http.specs.Routes.{route_row};

use crate::endpoint::Endpoint;
use desk_text::OutOfMemory;
use matchit::Router;
use std::alloc::Global;
use std::str;

/// The routes that the desk knows. A server makes them once, and asks them with `route`.
#[derive(Drop)]
pub struct Routes {
    /// The first segment of each path, which is literal: what follows it is read by us.
    router: Router<Endpoint>,
    ghost built: { router ≡ router_rows },
}

impl Routes {
    /// Makes the routes. There is no other reason for a fault than want of memory.
    #[tactic(auto, unfolding(crate::specs::Endpoints::row_place))]
    pub fn build(alloc: Global) -> Result<Routes, OutOfMemory> {
        let mut router = Router::new(alloc);
        for endpoint in Endpoint::ALL {
            add(&mut router, endpoint)?;
        }
        Ok(Routes { router })
    }

    /// The row of the table whose path begins with the word.
    pub(crate) fn find(&self, word: &[u8]) -> Option<Endpoint>
        ensures { option_map row_at result ≡ route_row word.now }
    {
        match str::from_utf8(word) {
            Ok(word) => self.find_text(word),
            Err(_) => None,
        }
    }

    /// The same for a word that is text, as all words of the table are.
    fn find_text(&self, word: &str) -> Option<Endpoint>
        ensures { option_map row_at result ≡ route_row word.now }
    {
        match self.router.at(word) {
            Ok(found) => Some(*found.value),
            Err(_) => None,
        }
    }
}

/// Adds a row's word.
fn add(router: &mut Router<Endpoint>, endpoint: Endpoint) -> Result<(), OutOfMemory>
    ensures { OnOk result (router.new ≡ placed (literal_row endpoint) router.old) }
{
    match router.insert(endpoint.word(), endpoint) {
        Ok(()) => Ok(()),
        Err(_) => Err(OutOfMemory),
    }
}
