//! What holds of every text, field and stream, and of every run of calls. These functions do nothing: their contracts are
//! the laws.
ghost use Rattle.std.specs.Prelude.{◌≡◌, ℕ, ◌<◌, ◌≤◌, ◌^◌, ◌↔◌, List, ◌++◌, length, Ok, Err, true};
ghost use Rattle.tt_frame.specs.Text.{IsText, is_text};
ghost use Rattle.tt_frame.specs.Packet.{IsBytes, Packet};
ghost use Rattle.tt_frame.specs.Stream.{IsPartial, IsProperFront, End, Reads, Cut, Broken};
ghost use Rattle.tt_frame.specs.StreamReading.{reading};
ghost use Rattle.tt_frame.specs.Holding.{Holding};
ghost use Rattle.tt_frame.specs.Framing.{Feeds, Gives, GivesPartial, GivesBadSize};
ghost use Rattle.tt_frame.specs.declared.framer.Next.{Next};
ghost use Rattle.tt_frame.specs.declared.framer.Next.TheVariants.{Partial, BadSize};
ghost use Rattle.tt_frame.specs.Unread.{Unread, GoesOver};
ghost use Rattle.tt_frame.specs.FieldForms.{Field, Value, spelled, Fits, field_at};
ghost use Rattle.tt_frame.specs.Stops.{IsNotAt};
ghost use Rattle.tt_frame.specs.Runs.{Call, Leads, empty_of, taken_by, given_by};

/// The test of a text, as definitions use it, is exact: it is true of the texts of at most that many bytes, and of
/// nothing else.
pub fn text_test()
    ensures { (max : ℕ) (bytes : List ℕ) → (is_text max bytes ≡ true) ↔ (IsText bytes × (length bytes ≤ max)) }
{}

/// Reading a field is exact: it gives a value, and what is left, exactly where the value's spelling stands there and that
/// is right behind it; and it gives the place exactly where no value of the field stands there.
pub fn one_field()
    ensures there { (f : Field) (s t : Unread) (x : Value f) → IsBytes s.rest
        → (field_at f s ≡ Ok (x, t)) ↔ (Fits f x × GoesOver s (spelled f x) t) }
    ensures absent { (f : Field) (s : Unread) (at : ℕ) → IsBytes s.rest
        → (field_at f s ≡ Err at) ↔ ((at ≡ s.at) × IsNotAt f s) }
{}

/// Any bytes are whole packets and then an end, in exactly one way.
pub fn one_reading()
    ensures some { (limit : ℕ) (bytes : List ℕ) → 3 ≤ limit → limit < 2 ^ 16 → IsBytes bytes
        → (packets : List Packet) × (end : End) × Reads limit bytes packets end }
    ensures only { (limit : ℕ) (bytes : List ℕ) (packets others : List Packet) (end other : End) → limit < 2 ^ 16
        → Reads limit bytes packets end → Reads limit bytes others other → (packets ≡ others) × (end ≡ other) }
    // It is the one that the function `reading` gives.
    ensures reading { (limit : ℕ) (bytes : List ℕ) → 3 ≤ limit → IsBytes bytes
        → Reads limit bytes (reading limit bytes).0 (reading limit bytes).1 }
    // What is less than a packet is one byte or none, or a proper front of a packet.
    ensures partial { (limit : ℕ) (rest : List ℕ) → 3 ≤ limit → limit < 2 ^ 16 → IsBytes rest → 2 ≤ length rest
        → (IsPartial limit rest ↔ IsProperFront limit rest) }
{}

/// After any calls of a framer, in any order, with any pieces:
pub fn every_run()
    // The packets that it gave are the first of those of the bytes that it took.
    ensures packets { (limit : ℕ) (calls : List Call) (now : Holding) (packets : List Packet) (end : End) → limit < 2 ^ 16
        → Leads (empty_of limit) calls now → Reads limit (taken_by calls) packets end
        → (later : List Packet) × (packets ≡ given_by calls ++ later) }
    // It answers `Partial` exactly where the bytes that it took are these packets, and what it holds is the rest.
    ensures partial { (limit : ℕ) (calls : List Call) (now after : Holding) (answer : Next) → limit < 2 ^ 16
        → Leads (empty_of limit) calls now → Gives now answer after
        → (answer ≡ Partial) ↔ Cut limit (taken_by calls) (given_by calls) now.held }
    // It answers `BadSize` exactly where they are broken behind these packets, by that size.
    ensures bad_size { (limit : ℕ) (calls : List Call) (now after : Holding) (answer : Next) (n : ℕ) → limit < 2 ^ 16
        → Leads (empty_of limit) calls now → Gives now answer after
        → (answer ≡ BadSize n) ↔ Broken limit (taken_by calls) (given_by calls) n }
    // That size is its answer from then on.
    ensures stays { (old now later after : Holding) (n : ℕ) (calls : List Call) (answer : Next) → old.limit < 2 ^ 16
        → GivesBadSize old now n → Leads now calls later → Gives later answer after → answer ≡ BadSize n }
    // Where it answered `Partial`, it takes at least one byte of the next piece that has one.
    ensures moves { (old now after : Holding) (piece : List ℕ) (n : ℕ)
        → GivesPartial old now → Feeds now piece n after → 0 < length piece → 0 < n }
{}
