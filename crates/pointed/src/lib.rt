// Which word of a line a fault is about, as far as the line alone tells.
//
// It is given the code of a refusal, and the line that is shown: the first one of its instruction. It knows neither the file's escape character nor its
// other lines. So it points at no word that may go on in the next line, and after a quote or an escape character at flags alone, which know neither. Where
// several words may be the one, it points at none.
//
// Of a word that is known otherwise `spotted` says where it stands in a line.
//
// The central definition is `pointed` in specs/Pointing.antt: specs/Flag.antt says which flag it is, specs/Word.antt which other word, and specs/Spot.antt
// where that stands.
//
// ```
// pointed(alloc, Code::R16, "COPY --chown=node:node a b")?    // --chown=node:node, in column 6
// pointed(alloc, Code::R16, "EXPOSE 80 443/sctp")?            // 443/sctp, in column 11
// pointed(alloc, Code::R16, "EXPOSE $A $B")?                  // none
// ```
#![tactic(auto)]

mod flag;
pub mod laws;
mod pointing;
mod spot;
mod word;

pub use pointing::{are_flags_alone, pointed, pointed_later, spotted};
pub use spot::Pointed;
