//! What follows from the definitions alone, for every line.
ghost use Rattle.std.specs.Prelude.{◌≡◌, ℕ, true, map, ◌+◌, ◌<◌, ◌≤◌, List, length, take, None, Some};
ghost use Rattle.std.specs.List.{AllByRecursion};
ghost use Rattle.ipx_settings.specs.Addresses.{address_of, range_of};
ghost use Rattle.ipx_settings.specs.Beginnings.{IsLine, BeginLine, link_said};
ghost use Rattle.ipx_settings.specs.Lines.{read_from, read_to, reading_of, socket_of};
ghost use Rattle.ipx_settings.specs.Right.{IsAddress, IsWord, IsLink};
ghost use Rattle.ipx_settings.specs.RightLines.{Within, IsRight, IsSaid, IsRange, AreListed};
ghost use Rattle.ipx_settings.specs.WritingAddresses.{address_words};
ghost use Rattle.ipx_settings.specs.WritingLinks.{spaced, link_words};
ghost use Rattle.ipx_settings.specs.WritingLines.{line_words, socket_word, range_word, sockets_words, allow_words, trust_words};
ghost use Rattle.ipx_settings.specs.declared.addresses.Address.{Address};
ghost use Rattle.ipx_settings.specs.declared.addresses.HostRange.{HostRange};
ghost use Rattle.ipx_settings.specs.declared.expected.Expected.{Expected};
ghost use Rattle.ipx_settings.specs.declared.line.Context.{Context};
ghost use Rattle.ipx_settings.specs.declared.line.Line.{Line};
ghost use Rattle.ipx_settings.specs.declared.line.Line.TheVariants.{Nothing, Extend, Allow, Trust};
ghost use Rattle.ipx_settings.specs.declared.link.Cards.{Cards};
ghost use Rattle.ipx_settings.specs.declared.link.Link.{Link};
ghost use Rattle.ipx_settings.specs.declared.link.LinkBegun.TheVariants as begun;

/// A reading without a fault is a line, and what it says is what the line says; each line is read so.
pub fn lines_are_read()
    ensures right { (c : Context) (words : List (List ℕ)) → (read_from c Nothing 0 words).fault ≡ None → IsLine c (read_from c Nothing 0 words).line words }
    ensures read { (c : Context) (l : Line) (words : List (List ℕ)) → IsLine c l words → ((read_from c Nothing 0 words).fault ≡ None) × ((read_from c Nothing 0 words).line ≡ l) }
{}

/// The words before a fault begin a line. With the wrong word they begin none: it is the first one. Where no word is wrong but the end, the
/// words are no line. (a network may have a client)
pub fn faults_are_first()
    ensures before { (c : Context) (words : List (List ℕ)) → 1 ≤ c.most_clients → BeginLine c (take (read_from c Nothing 0 words).read words) }
    ensures wrong { (c : Context) (e : Expected) (words : List (List ℕ)) → (read_from c Nothing 0 words).fault ≡ Some e → (read_from c Nothing 0 words).read < length words
        → BeginLine c (take ((read_from c Nothing 0 words).read + 1) words) → ⊥ }
    ensures ended { (c : Context) (e : Expected) (l : Line) (words : List (List ℕ)) → (read_from c Nothing 0 words).fault ≡ Some e → IsLine c l words → ⊥ }
{}

/// An address that was written is read again as it was; so each has words of its own. What is read as an address can be written.
pub fn addresses_are_read_again()
    ensures again { (address : Address) → IsAddress address → address_of (address_words address) ≡ Some address }
    ensures right { (word : List ℕ) (address : Address) → address_of word ≡ Some address → IsAddress address }
    ensures once { (a b : Address) → IsAddress a → IsAddress b → address_words a ≡ address_words b → a ≡ b }
{}

/// So is a link.
pub fn links_are_read_again()
    ensures right { (cards : Cards) (words : List (List ℕ)) (link : Link) → AllByRecursion IsWord words → link_said cards begun.Nothing words ≡ Some (begun.Whole link) → IsLink cards link }
    ensures again { (cards : Cards) (link : Link) → IsLink cards link → link_said cards begun.Nothing (link_words link) ≡ Some (begun.Whole link) }
    ensures once { (cards : Cards) (a b : Link) → IsLink cards a → IsLink cards b → spaced (link_words a) ≡ spaced (link_words b) → a ≡ b }
{}

/// And so is a line.
pub fn lines_are_read_again()
    ensures right { (c : Context) (text : List ℕ) → (reading_of c text).fault ≡ None → IsSaid c (reading_of c text).line }
    ensures again { (c : Context) (line : Line) → IsRight c line → IsLine c line (line_words line) }
    ensures text { (c : Context) (line : Line) → IsRight c line → (reading_of c (spaced (line_words line)) ≡ read_to line (length (line_words line)) None) }
    ensures once { (c : Context) (a b : Line) → IsRight c a → IsRight c b → spaced (line_words a) ≡ spaced (line_words b) → a ≡ b }
{}

/// And so is each line with a list: of it each word is read again as what it was.
pub fn lists_are_read_again()
    ensures sockets { (c : Context) (sockets : List ℕ) → AreListed (Within 1 65535) sockets
        → (reading_of c (spaced (sockets_words sockets)) ≡ read_to (Extend true) (length (sockets_words sockets)) None) × (map socket_of (map socket_word sockets) ≡ map Some sockets) }
    ensures allowed { (c : Context) (ranges : List HostRange) → AreListed IsRange ranges
        → (reading_of c (spaced (allow_words ranges)) ≡ read_to (Allow true) (length (allow_words ranges)) None) × (map range_of (map range_word ranges) ≡ map Some ranges) }
    ensures trusted { (c : Context) (ranges : List HostRange) → AreListed IsRange ranges
        → reading_of c (spaced (trust_words ranges)) ≡ read_to (Trust true) (length (trust_words ranges)) None }
{}
