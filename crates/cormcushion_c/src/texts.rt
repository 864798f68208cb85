// From a day file's bytes, or a month's days, to a text: its size, with the text at the front of the lent block.
ghost use Rattle.dayfile.specs.File.{walked};
ghost use Rattle.dayruns.specs.Walk.{file_check};
ghost use Rattle.sharelisting.specs.SharesText.{shares_listing};
ghost use Rattle.chargelisting.specs.ChargesText.{charges_check, charges_listing};
ghost use Rattle.pointlisting.specs.PointsText.{points_listing};
ghost use Rattle.monthlisting.specs.Rows.{month_check, month_listing};
ghost use Rattle.cormcushion.specs.Lent.{ListingPacked};

// The listing of a day's shares.
#[unsafe(no_mangle)]
pub extern "C" fn cormcushion_list_shares(file: &[u8], text: &mut [u8]) -> u64
    ensures { ListingPacked (file_check (walked file.now)) (shares_listing file.now)
        text.old text.new result }
{
    cormcushion::cormcushion_list_shares(file, text)
}

// The listing of a day's expected overrun charges at a rate.
#[unsafe(no_mangle)]
pub extern "C" fn cormcushion_list_charges(file: &[u8], rate: u32, text: &mut [u8]) -> u64
    ensures { ListingPacked (charges_check (record { 0 = rate }) file.now)
        (charges_listing (record { 0 = rate }) file.now)
        text.old text.new result }
{
    cormcushion::cormcushion_list_charges(file, rate, text)
}

// The listing of the hours at a day's points.
#[unsafe(no_mangle)]
pub extern "C" fn cormcushion_list_points(file: &[u8], text: &mut [u8]) -> u64
    ensures { ListingPacked (file_check (walked file.now)) (points_listing file.now)
        text.old text.new result }
{
    cormcushion::cormcushion_list_points(file, text)
}

// The statement of a month, from its days as rows of eight numbers.
#[unsafe(no_mangle)]
pub extern "C" fn cormcushion_month_statement(numbers: &[u64], text: &mut [u8]) -> u64
    ensures { ListingPacked (month_check numbers.now) (month_listing numbers.now)
        text.old text.new result }
{
    cormcushion::cormcushion_month_statement(numbers, text)
}
