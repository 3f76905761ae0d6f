//! Registration, updates and listings. What is wanted came from outside the definitions. These functions do nothing.
ghost use Rattle.std.specs.Prelude.{◌≡◌, [], ◌∷◌, false, codes};
ghost use Rattle.tt_gc_rows.specs.Words.{plain, otherwise, lives, ended, outcome};
ghost use Rattle.tt_gc_rows.specs.RegistryLists.{registration, registration_in_bytes, other_words, registered_again, another_secret};
ghost use Rattle.tt_gc_rows.specs.RegistryLists.{unknown_code, code_still_live, secret_without_code, nothing_drawn_in_vain};
ghost use Rattle.tt_gc_rows.specs.RegistryLists.{empty_update, update_of_nobody, listing_of_none, listed, listed_anew};

/// A server registers: the code is drawn, and its secret.
pub fn makes_registration()
    ensures { outcome plain [] registration ≡ record {
      connections = lives (codes "2d00022b395a44445646005333324135434158355755395a354255504b4c43475852394a575332325747480000" ∷ [])
          ∷ [];
      attempts = [];
      over = false;
    } }
{}

/// The same, told in bytes.
pub fn makes_registration_in_bytes()
    ensures { outcome plain [] registration_in_bytes ≡ record {
      connections = lives (codes "2d00022b395a44445646005333324135434158355755395a354255504b4c43475852394a575332325747480000" ∷ [])
          ∷ [];
      attempts = [];
      over = false;
    } }
{}

/// Other words draw another code and another secret.
pub fn makes_other_words()
    ensures { outcome otherwise [] other_words ≡ record {
      connections = lives (codes "2d00022b44354d485a4b0045374e584b364b37384c564346363354454a4c565653423235584745453948330000" ∷ [])
          ∷ [];
      attempts = [];
      over = false;
    } }
{}

/// A server ends, and registers again by its code and secret from another connection.
pub fn makes_registered_again()
    ensures { outcome plain [] registered_again ≡ record {
      connections = ended (codes "2d00022b395a44445646005333324135434158355755395a354255504b4c43475852394a575332325747480000" ∷ [])
          ∷ lives (codes "2d00022b395a44445646005333324135434158355755395a354255504b4c43475852394a575332325747480000" ∷ [])
          ∷ [];
      attempts = [];
      over = false;
    } }
{}

/// With another secret a known code is refused.
pub fn makes_another_secret()
    ensures { outcome plain [] another_secret ≡ record {
      connections = ended (codes "2d00022b395a44445646005333324135434158355755395a354255504b4c43475852394a575332325747480000" ∷ [])
          ∷ ended (codes "0500000100" ∷ [])
          ∷ [];
      attempts = [];
      over = false;
    } }
{}

/// A code that was never drawn is refused, and so is a text that is no code.
pub fn makes_unknown_code()
    ensures { outcome plain [] unknown_code ≡ record {
      connections = ended (codes "0500000100" ∷ [])
          ∷ ended (codes "0500000100" ∷ [])
          ∷ [];
      attempts = [];
      over = false;
    } }
{}

/// While its server lives a code is refused, also with its secret; and so are a second registration and a third kind.
pub fn makes_code_still_live()
    ensures { outcome plain [] code_still_live ≡ record {
      connections = ended (codes "2d00022b395a44445646005333324135434158355755395a354255504b4c43475852394a575332325747480000"
          ∷ codes "0500000100" ∷ [])
          ∷ ended (codes "0500000100" ∷ [])
          ∷ ended (codes "0500000100" ∷ [])
          ∷ [];
      attempts = [];
      over = false;
    } }
{}

/// A secret beside an empty code is ignored: a code is drawn.
pub fn makes_secret_without_code()
    ensures { outcome plain [] secret_without_code ≡ record {
      connections = lives (codes "2d00022b395a44445646005333324135434158355755395a354255504b4c43475852394a575332325747480000" ∷ [])
          ∷ [];
      attempts = [];
      over = false;
    } }
{}

/// Where a registration is refused nothing is drawn.
pub fn makes_nothing_drawn_in_vain()
    ensures { outcome plain [] nothing_drawn_in_vain ≡ record {
      connections = ended (codes "0500000100" ∷ [])
          ∷ lives (codes "2d00022b395a44445646005333324135434158355755395a354255504b4c43475852394a575332325747480000" ∷ [])
          ∷ [];
      attempts = [];
      over = false;
    } }
{}

/// An update with an empty body.
pub fn makes_empty_update()
    ensures { outcome plain [] empty_update ≡ record {
      connections = ended (codes "0500000000" ∷ [])
          ∷ [];
      attempts = [];
      over = false;
    } }
{}

/// An update on a connection that isn't registered.
pub fn makes_update_of_nobody()
    ensures { outcome plain [] update_of_nobody ≡ record {
      connections = ended (codes "0500000000" ∷ [])
          ∷ [];
      attempts = [];
      over = false;
    } }
{}

/// Where no server is listed the end of the listing is told alone.
pub fn makes_listing_of_none()
    ensures { outcome plain [] listing_of_none ≡ record {
      connections = lives (codes "2d00022b395a44445646005333324135434158355755395a354255504b4c43475852394a575332325747480000" ∷ [])
          ∷ lives (codes "0500050000" ∷ [])
          ∷ [];
      attempts = [];
      over = false;
    } }
{}

/// Public servers of the revision are listed in order of registration, each by its last update; no other kind, no other
/// revision.
pub fn makes_listed()
    ensures { outcome plain [] listed ≡ record {
      connections = lives (codes "2d00022b395a44445646005333324135434158355755395a354255504b4c43475852394a575332325747480000" ∷ [])
          ∷ lives (codes "2d00022b5950585944390039524c44525750343950514a3751523851595456374b57543951394a364b5a550000"
          ∷ codes "1c000501002b44414e55453400470031332e34000102030004000000"
          ∷ codes "0500050000" ∷ [])
          ∷ lives (codes "2d00022b44414e55453400563841363747514353473237424b514334344d4b34385637594a38534e5259430000" ∷ [])
          ∷ lives (codes "1c000501002b395a4444564600470031332e34000102030004000000"
          ∷ codes "1c000501002b44414e55453400470031332e34000102030004000000"
          ∷ codes "0500050000" ∷ [])
          ∷ [];
      attempts = [];
      over = false;
    } }
{}

/// A server that registers again comes last, and is listed only once it has told of its game again.
pub fn makes_listed_anew()
    ensures { outcome plain [] listed_anew ≡ record {
      connections = ended (codes "2d00022b395a44445646005333324135434158355755395a354255504b4c43475852394a575332325747480000" ∷ [])
          ∷ lives (codes "2d00022b5950585944390039524c44525750343950514a3751523851595456374b57543951394a364b5a550000" ∷ [])
          ∷ lives (codes "2d00022b395a44445646005333324135434158355755395a354255504b4c43475852394a575332325747480000" ∷ [])
          ∷ lives (codes "1c000501002b59505859443900470031332e34000102030004000000"
          ∷ codes "0500050000"
          ∷ codes "1c000501002b59505859443900470031332e34000102030004000000"
          ∷ codes "1c000501002b395a4444564600470031332e34000102030004000000"
          ∷ codes "0500050000" ∷ [])
          ∷ [];
      attempts = [];
      over = false;
    } }
{}
