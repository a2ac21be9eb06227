// What the definitions give, by themselves.
ghost use Rattle.std.specs.Prelude.{◌≡◌, ◌⊎◌, ◌-◌, ◌^◌, ℕ, List, [], codes, drop, nat_eq, false};
ghost use Rattle.std.specs.List.{list_any, All};
ghost use Rattle.pd_types.specs.declared.oracle.Actor.TheVariants.{Driver, Store};
ghost use Rattle.pd_types.specs.declared.request.Request.{Request};
ghost use Rattle.pd_types.specs.declared.request.Request.TheVariants.{Alive};
ghost use Rattle.pd_script.specs.Forms.{items_of};
ghost use Rattle.pd_script.specs.Joining.{joined_items, joined_lines, spaced};
ghost use Rattle.pd_script.specs.Places.{least, most};
ghost use Rattle.pd_script.specs.Scripts.{asker};
ghost use Rattle.pd_script.specs.Words.{behind_word, pieces_from, raw_lines, trimmed, words};
ghost use Rattle.pd_script.specs.declared.place.Place.TheVariants.{Client, Count, Driver, Id, Moment, Saved, Seconds, Term, Version, Workers};

/// Nothing is lost where a text is cut: its lines with their line feeds are the text, and no line
/// has a line feed in it; the pieces of a line with spaces between them are the line, and none has
/// a space; the items of a word with their separators are the word.
pub fn what_is_cut_is_the_whole()
    ensures lines { (text : List ℕ) → joined_lines (raw_lines text) ≡ text }
    ensures feeds { (text : List ℕ) → All (λ raw. list_any (λ b. nat_eq b 10) raw.bytes ≡ false) (raw_lines text) }
    ensures pieces { (line : List ℕ) → spaced (pieces_from [] line) ≡ line }
    ensures spaces { (line : List ℕ) → All (λ piece. list_any (λ b. nat_eq b 32) piece ≡ false) (pieces_from [] line) }
    ensures items { (word : List ℕ) → joined_items (items_of word) ≡ word }
{}

/// What stands behind the first word of a line has its other words; the rest of a line is cut at
/// its ends alone.
pub fn a_rest_keeps_its_words()
    ensures words { (line : List ℕ) → words (behind_word line) ≡ drop 1 (words line) }
    ensures inside { trimmed (codes "  a  b ") ≡ codes "a  b" }
    ensures whole { trimmed (codes "ab") ≡ codes "ab" }
    ensures spaces { trimmed (codes "   ") ≡ [] }
{}

/// The ranges of numbers: drivers, clients, ids and counts of timestamps begin at 1, all others at
/// 0; moments are below 2^46, saved times below 2^45, counts and terms below 2^18, ids, versions
/// and conf_vers below 2^63, seconds below 2^32.
pub fn each_place_has_its_range()
    ensures drivers { least Driver ≡ 1 }
    ensures clients { least Client ≡ 1 }
    ensures counts { least Count ≡ 1 }
    ensures ids { least Id ≡ 1 }
    ensures moments { most Moment ≡ 2 ^ 46 - 1 }
    ensures saved { most Saved ≡ 2 ^ 45 - 1 }
    ensures most_counts { most Count ≡ 2 ^ 18 - 1 }
    ensures terms { most Term ≡ 2 ^ 18 - 1 }
    ensures most_ids { most Id ≡ 2 ^ 63 - 1 }
    ensures versions { most Version ≡ 2 ^ 63 - 1 }
    ensures seconds { most Seconds ≡ 2 ^ 32 - 1 }
    ensures workers { (least Workers ≡ 1) × (most Workers ≡ 16) }
    ensures rest { (least Moment ≡ 0) × (least Saved ≡ 0) × (least Term ≡ 0) }
    ensures others { (least Version ≡ 0) × (least Seconds ≡ 0) }
{}

/// Who asks a request is a store or the driver that is asked: never a client, and no other driver.
pub fn stores_and_the_driver_ask()
    ensures stores { (driver : ℕ) (request : Request) → (asker driver request ≡ Driver driver) ⊎ ((store : ℕ) × (asker driver request ≡ Store store)) }
    ensures spoken { (driver store moment : ℕ) → asker driver (Alive store moment) ≡ Store store }
{}
