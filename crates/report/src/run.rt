// The whole work of `count` on a card: its header, the build, the text.
ghost use Rattle.std.specs.Prelude.{◌≡◌, ◌≤◌, length, OnOk, IfErr};
ghost use Rattle.std.proofs.lemmas.List.Edits.{sets};
ghost use Rattle.refusal.specs.Refusal.{number_of};
ghost use Rattle.text.specs.Text.{refused_line};
ghost use Rattle.digits.specs.Laid.{Lays};
ghost use Rattle.report.specs.Printed.{printed};

use crate::buffer::{PLACES, filled};
use crate::build::build;
use crate::lines::{put_circles, put_summary};
use card::AcceptedCard;
use digits::Page;
use refusal::Refusal;

// The build over a table of zeros, then the text. A card that is refused leaves the page as it is.
#[tactic(auto, using(crate::proofs::Sizes::few_places, std::proofs::lemmas::Grind::common_steps))]
fn report(card: &[u8], page: &mut Page) -> Result<(), Refusal>
    ensures laid { OnOk result ((Lays page.old (printed card.now) page.new) × (length (printed card.now) ≤ 139333)) }
    ensures left { IfErr result (λ r. (page.new ≡ page.old) × (printed card.now ≡ refused_line (number_of r))) }
{
    let card = AcceptedCard::read(card)?;
    let mut table = filled::<f64, PLACES>(0.0);
    let table = &mut table[..layout::payload_len(card.header.decimation.grid)];
    let built = build(card, table)?;
    put_summary(page, card.header.decimation.source.height, built);
    put_circles(card, table, page);
    Ok(())
}

// The text of a card that is refused is the refusal's line alone.
fn put_text(card: &[u8], page: &mut Page)
    ensures { (Lays page.old (printed card.now) page.new) × (length (printed card.now) ≤ 139333) }
{
    if let Err(refusal) = report(card, page) {
        text::refused_line(page, refusal.number());
    }
}

// What `count` prints of a card is laid over `out`, of any length, from its front on: what does not fit is dropped, and the
// answer is the whole text's length, at most 69 bytes and 34 for each of 4,096 circles.
pub fn answer(card: &[u8], out: &mut [u8]) -> usize
    ensures { (result ≡ length (printed card.now))
        × (out.new ≡ sets out.old 0 (printed card.now)) × (result ≤ 139333) }
{
    let mut page = Page::new(out, 0);
    put_text(card, &mut page);
    page.end()
}
