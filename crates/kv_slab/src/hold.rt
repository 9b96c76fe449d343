ghost use Rattle.std.specs.Prelude.{◌≡◌, ◌+◌, ◌≤◌, ◌<◌, ◌^◌, OnOk, IfOk, IfErr, length};
ghost use Rattle.kv_base.specs.Image.{Image, with_page};
ghost use Rattle.kv_model.specs.Recovery.{most_pages};
ghost use Rattle.kv_slab.specs.Pages.{over, with_pages, ArePages, Missing, HasAt};

use crate::fault::StepFault;
use crate::page::Page;
use crate::round::Round;

/// Adds a page that isn't there, and answers where it is.
pub fn hold(round: &mut Round, held: Page) -> Result<usize, StepFault>
    requires low { (1 ≤ held.file) × (held.file ≤ 11) }
    requires page { held.page < most_pages held.file }
    requires missing { Missing held.file held.page round.old }
    requires pages { ArePages round.old }
    ensures same { (image : Image) → held.content ≡ over image round.old held.file held.page
        → over image round.new ≡ over image round.old }
    ensures set { (image : Image) → OnOk result (over image round.new
        ≡ with_page (over image round.old) held.file held.page held.content) }
    ensures at { IfOk result (λ at. HasAt round.new at held.file held.page) }
    ensures pages { ArePages round.new }
    ensures count { length round.new ≤ length round.old + 1 }
    ensures cause { IfErr result (λ fault. fault ≡ StepFault.NoMemory) }
{
    Ok(round.push(held)?)
}

/// Adds a page that is written whole. One that is there already is answered by `NoMemory`: a slot
/// was taken twice, by a link that the store didn't write.
pub fn hold_whole(round: &mut Round, held: Page) -> Result<(), StepFault>
    requires file { (1 ≤ held.file) × (held.file ≤ 11) }
    requires page { held.page < most_pages held.file }
    requires pages { ArePages round.old }
    ensures set { (image : Image) → OnOk result (over image round.new
        ≡ with_page (over image round.old) held.file held.page held.content) }
    ensures pages { ArePages round.new }
    ensures count { length round.new ≤ length round.old + 1 }
    ensures cause { IfErr result (λ fault. fault ≡ StepFault.NoMemory) }
{
    match round.find(held.file, held.page) {
        Some(_) => Err(StepFault::NoMemory),
        None => match hold(round, held) {
            Ok(_) => Ok(()),
            Err(fault) => Err(fault),
        },
    }
}

/// Adds the pages of one slot.
pub fn hold_pages(
    round: &mut Round,
    file: u8,
    first: u32,
    contents: &[[u8; 4096]],
) -> Result<(), StepFault>
    requires file { (1 ≤ file) × (file ≤ 11) }
    requires most { first + length contents.now ≤ most_pages file }
    requires range { first + length contents.now < 2 ^ 32 }
    requires pages { ArePages round.old }
    ensures set { (image : Image) → OnOk result (over image round.new
        ≡ with_pages (over image round.old) file first contents.now) }
    ensures pages { ArePages round.new }
    ensures count { length round.new ≤ length round.old + length contents.now }
    ensures cause { IfErr result (λ fault. fault ≡ StepFault.NoMemory) }
{
    let mut page = first;
    for content in contents {
        let held = Page {
            file,
            page,
            content: *content,
        };
        hold_whole(round, held)?;
        page += 1;
    }
    Ok(())
}
