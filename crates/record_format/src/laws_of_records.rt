//! The laws of the definitions, as contracts of functions that do nothing.
ghost use Rattle.std.specs.Prelude.{◌≡◌};
ghost use Rattle.record_format.specs.declared.formats.TheConstants.{FORMAT, OLD_FORMAT, OLD_MAX_VERSIONS};
ghost use Rattle.record_format.specs.FormatLaw.{ReadIsWritten};
ghost use Rattle.record_format.specs.Laws.{MeaningSays, SaysMeaning, OneMeaning, WrittenIsRead, MeansItsFlash, IsShort, PageIsRead};

/// The laws of payloads: meaning and spelling belong together, a payload has at most one meaning,
/// and what is written is read. On a flash it means a record of its sizes alone.
pub fn payload_laws()
    ensures says { MeaningSays }
    ensures means { SaysMeaning }
    ensures one { OneMeaning }
    ensures written { WrittenIsRead }
    ensures its_flash { MeansItsFlash }
    ensures short { IsShort }
{}

/// The law of pages: what is written is read.
pub fn page_laws()
    ensures { PageIsRead }
{}

/// The laws of formats: which there are, that the old one keeps at most 64 versions, and that a record
/// of any format that is read may be written.
pub fn format_laws()
    ensures formats { (FORMAT ≡ 2) × (OLD_FORMAT ≡ 1) }
    ensures old_versions { OLD_MAX_VERSIONS ≡ 64 }
    ensures written { ReadIsWritten }
{}
