// The day file's reader.
ghost use Rattle.std.specs.Prelude.{◌≡◌};
ghost use Rattle.dayformat.specs.Layout.{numbers_in};
ghost use Rattle.dayruns.specs.Walk.{file_check};
ghost use Rattle.dayfile.specs.File.{walked};
ghost use Rattle.cormcushion.specs.Packed.{packed_check};
ghost use Rattle.cormcushion.specs.Lent.{ReadingPacked};

// The check of a day file alone: how many numbers its day has.
#[unsafe(no_mangle)]
pub extern "C" fn cormcushion_check_day(file: &[u8]) -> u64
    ensures { result ≡ packed_check (file_check (walked file.now)) (numbers_in (walked file.now).counts) }
{
    cormcushion::cormcushion_check_day(file)
}

// A day file read: how many numbers the day has, with them at the front of the lent block, and the head and the counts in `day`.
#[unsafe(no_mangle)]
pub extern "C" fn cormcushion_read_day(
    file: &[u8],
    day: &mut [u32; 8],
    numbers: &mut [usize],
) -> u64
    ensures { ReadingPacked file.now day.old numbers.old result
        day.new numbers.new }
{
    cormcushion::cormcushion_read_day(file, day, numbers)
}
