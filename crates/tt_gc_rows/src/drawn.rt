//! Codes, counted and drawn. This function does nothing: its contract is computed.
ghost use Rattle.std.specs.Prelude.{◌≡◌, [], ◌∷◌, codes};
ghost use Rattle.tt_gc_table.specs.Table.{first};
ghost use Rattle.tt_gc_table.specs.Codes.{next_code, new_code};
ghost use Rattle.tt_gc_rows.specs.Words.{plain};

/// The last character counts fastest, and the codes wrap. Where the code that is drawn was drawn before, the next one that wasn't
/// stands in for it.
pub fn makes_codes()
    ensures next { next_code (codes "+9ZDDVF") ≡ codes "+9ZDDVG" }
    ensures carried { next_code (codes "+AAAH99") ≡ codes "+AAAJAA" }
    ensures wrapped { next_code (codes "+999999") ≡ codes "+AAAAAA" }
    ensures again { new_code (record (first plain) {
      drawn = record { code = codes "+9ZDDVG"; secret = [] }
          ∷ record { code = codes "+9ZDDVF"; secret = [] } ∷ [];
    }) ≡ codes "+9ZDDVH" }
{}
