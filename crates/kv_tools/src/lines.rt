ghost use Rattle.std.specs.Prelude.{◌≡◌, ◌≤◌, ◌++◌, OnOk, IfOk, length};
ghost use Rattle.std.specs.String.{string_bytes};
ghost use Rattle.kv_tools.specs.Lines.{class_line, class_lines, disk_lines};

use kv_base::NoMemory;
use kv_recover::{ClassCount, Survey};
use std::alloc::{AllocError, Global};

/// Appends the line of a class of a disk.
fn push_class(text: &mut String, disk: u32, class: u32, count: ClassCount) -> Result<(), AllocError>
    ensures { OnOk result (string_bytes text.new
        ≡ string_bytes text.old ++ class_line disk class count) }
{
    let ClassCount {
        end,
        kept,
        stale,
        foreign,
        tomb,
        never,
        torn,
        bad,
    } = count;
    writeln!(
        text,
        "disk {disk} class {class} end {end} kept {kept} stale {stale} foreign {foreign} \
         tomb {tomb} never {never} torn {torn} bad {bad}"
    )
}

/// Appends the lines of the classes of a disk that have a slot below their end.
fn push_classes(text: &mut String, disk: u32, counts: &[ClassCount]) -> Result<(), AllocError>
    requires { length counts.now ≤ 11 }
    ensures { OnOk result (string_bytes text.new
        ≡ string_bytes text.old ++ class_lines disk 1 counts.now) }
{
    let mut class = 1;
    for count in counts {
        if count.end != 0 {
            push_class(text, disk, class, *count)?;
        }
        class += 1;
    }
    Ok(())
}

/// The lines of a disk.
#[tactic(auto, unfolding(crate::specs::Lines::disk_lines))]
pub fn lines_of(alloc: Global, disk: u32, survey: &Survey) -> Result<String, NoMemory>
    requires { length survey.now.classes.items ≤ 11 }
    ensures { IfOk result (λ text. string_bytes text ≡ disk_lines disk survey.now) }
{
    if survey.fresh {
        return Ok(format!(in alloc; "disk {disk} new\n")?);
    }
    let mut text = String::new(alloc);
    push_classes(&mut text, disk, survey.classes.as_slice())?;
    writeln!(
        text,
        "disk {disk} floor {} keys {}",
        survey.floor, survey.keys
    )?;
    Ok(text)
}
