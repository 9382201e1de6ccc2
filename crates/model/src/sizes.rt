// The sizes of a design disk and of the memory that serves it, and their limits.
ghost use Rattle.std.specs.Prelude.{◌≡◌, eqb};
ghost use Rattle.tables.specs.Rule.{test};
ghost use Rattle.model.specs.Sizes.{up_to, sizes_of, sized, sized_number, sizes_fit, sizes_answer};

#[repr(C)]
#[derive(Clone, Copy)]
pub struct Sizes {
    pub words: usize,
    pub records: usize,
    pub frames: usize,
    pub slots: usize,
    pub pages: usize,
    pub accounts: usize,
    pub chip: usize,
}

// How many requests can wait in the line.
pub const LINE: usize = 32;

// From 1 to the most.
fn up_to(n: usize, most: usize) -> bool
    ensures { result ≡ test (up_to n most) }
{
    (0 < n) & (n <= most)
}

impl Sizes {
    pub const MOST_WORDS: usize = 1024;

    pub const MOST_RECORDS: usize = 4096;

    pub const MOST_FRAMES: usize = 64;

    pub const MOST_SLOTS: usize = 64;

    pub const MOST_PAGES: usize = 256;

    pub const MOST_ACCOUNTS: usize = 16;

    pub const MOST_CHIP: usize = 256;

    // None where one of the seven is outside its limits. All are tested, with no branch.
    pub fn new(
        words: usize,
        records: usize,
        frames: usize,
        slots: usize,
        pages: usize,
        accounts: usize,
        chip: usize,
    ) -> Option<Sizes>
        ensures { (result ≡ sized (sizes_of words records frames slots pages accounts chip))
            × (sized_number result ≡ sizes_answer (sizes_of words records frames slots pages accounts chip)) }
    {
        let fit = up_to(words, Self::MOST_WORDS)
            & up_to(records, Self::MOST_RECORDS)
            & up_to(frames, Self::MOST_FRAMES)
            & up_to(slots, Self::MOST_SLOTS)
            & up_to(pages, Self::MOST_PAGES)
            & up_to(accounts, Self::MOST_ACCOUNTS)
            & up_to(chip, Self::MOST_CHIP);
        if fit {
            Some(Self {
                words,
                records,
                frames,
                slots,
                pages,
                accounts,
                chip,
            })
        } else {
            None
        }
    }

    // Question 1 of sizes that are lent: they can be made.
    pub fn within(self) -> bool
        ensures { (result ≡ test (sizes_fit self)) × (result ≡ eqb (sized_number (sized self)) 0) }
    {
        let made = Self::new(
            self.words,
            self.records,
            self.frames,
            self.slots,
            self.pages,
            self.accounts,
            self.chip,
        );
        made.is_some()
    }
}
