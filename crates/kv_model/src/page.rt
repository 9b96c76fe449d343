ghost use Rattle.std.specs.Prelude.{◌≡◌, ℕ, ◌+◌, ◌^◌, ◌≤◌, ◌==◌, ◌&&◌, if◌then◌else◌};
ghost use Rattle.std.specs.Prelude.{max};
ghost use Rattle.kv_base.specs.Image.{zero_page};
ghost use Rattle.kv_model.specs.Plain.{image_of};

// A page that was never written.
static ZEROS: [u8; 4096] = [0; 4096];

/// A page as a plain image keeps it.
#[derive(Clone, Copy, Debug)]
pub struct Page {
    /// The file.
    pub file: u8,
    /// The number of the page in its file.
    pub number: u16,
    /// The bytes.
    pub content: [u8; 4096],
}

/// The bytes at a place, once the page is written over these.
fn content_over<'a>(page: &'a Page, file: u8, number: u32, under: &'a [u8; 4096]) -> &'a [u8; 4096]
    ensures { result.now ≡ (if (file == page.now.file) && (number == page.now.number)
        then page.now.content else under.now) }
{
    if file == page.file && number == u32::from(page.number) {
        &page.content
    } else {
        under
    }
}

/// The bytes of the page of that number in the file.
pub fn page_at(pages: &[Page], file: u8, number: u32) -> &[u8; 4096]
    ensures { result.now ≡ image_of pages.now file number }
{
    let mut content: &[u8; 4096] = &ZEROS;
    for page in pages {
        content = content_over(page, file, number, content);
    }
    content
}

/// One past the page, if it is one of the file.
fn end_in(page: &Page, file: u8) -> u32
    ensures value { result ≡ (if file == page.now.file then page.now.number + 1 else 0) }
    ensures range { result ≤ 2 ^ 16 }
{
    if file == page.file {
        u32::from(page.number) + 1
    } else {
        0
    }
}

/// The greater number.
fn greater(a: u32, b: u32) -> u32
    ensures { result ≡ max a b }
{
    if a < b { b } else { a }
}

/// A number of pages such that all behind them in the file are zeros.
pub fn count_pages(pages: &[Page], file: u8) -> u32
    ensures rest { (number : ℕ) → result ≤ number → image_of pages.now file number ≡ zero_page }
    ensures range { result ≤ 2 ^ 16 }
{
    let mut count = 0;
    for page in pages {
        count = greater(count, end_in(page, file));
    }
    count
}
