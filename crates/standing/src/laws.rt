// What is proved of the records of an accepted sheet.
ghost use Rattle.standing.specs.Laws.{RecordsStand};

// The records that tell of each line what it belongs to stand for the script's told-apart text.
pub fn records_stand()
    ensures { RecordsStand }
{}
