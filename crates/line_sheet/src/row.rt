// A row of the sheet (`line_parameters` of branches.rs, LINE_CLASSES and `line_class_for` of params.rs).
ghost use Rattle.std.specs.Prelude.{◌≡◌};
ghost use Rattle.line_defs.specs.Class.{class_of_square};
ghost use Rattle.line_sheet.specs.Classes.{line_class, width_in, row_in, level_in, level_row};

use line_defs::Row;

// kV; r and x, ohm/km; b, microsiemens/km; thermal rating, MVA; surge impedance loading, MW.
#[derive(Clone, Copy)]
pub struct LineClass {
    pub kv: f64,
    pub r: f64,
    pub x: f64,
    pub b: f64,
    pub thermal: f64,
    pub sil: f64,
}

// By rising kV.
const CLASSES: [LineClass; 7] = [
    LineClass {
        kv: 69.0,
        r: 0.19,
        x: 0.48,
        b: 3.3,
        thermal: 63.0,
        sil: 12.5,
    },
    LineClass {
        kv: 115.0,
        r: 0.098,
        x: 0.45,
        b: 3.4,
        thermal: 160.0,
        sil: 35.0,
    },
    LineClass {
        kv: 138.0,
        r: 0.11,
        x: 0.48,
        b: 3.4,
        thermal: 180.0,
        sil: 50.0,
    },
    LineClass {
        kv: 230.0,
        r: 0.06,
        x: 0.45,
        b: 3.8,
        thermal: 500.0,
        sil: 140.0,
    },
    LineClass {
        kv: 345.0,
        r: 0.03,
        x: 0.35,
        b: 4.8,
        thermal: 1200.0,
        sil: 400.0,
    },
    LineClass {
        kv: 500.0,
        r: 0.022,
        x: 0.375,
        b: 5.6,
        thermal: 2500.0,
        sil: 900.0,
    },
    LineClass {
        kv: 765.0,
        r: 0.012,
        x: 0.26,
        b: 6.5,
        thermal: 4500.0,
        sil: 2200.0,
    },
];

// System base, MVA.
const BASE_MVA: f64 = 100.0;

// From here on a class keeps the spread to the power 0.6.
const EHV: f64 = 345.0;

// The class whose kV is log-nearest, by the square of a kV: against the product of two neighbours, the lower on a tie.
#[tactic(auto, unfolding(line_defs::specs::Class::class_of_square))]
fn class_of(square: f64) -> LineClass
    ensures { result ≡ line_class (class_of_square square) }
{
    if square <= 7935.0 {
        return CLASSES[0];
    }
    if square <= 15870.0 {
        return CLASSES[1];
    }
    if square <= 31740.0 {
        return CLASSES[2];
    }
    if square <= 79350.0 {
        return CLASSES[3];
    }
    if square <= 172500.0 {
        return CLASSES[4];
    }
    if square <= 382500.0 {
        return CLASSES[5];
    }
    CLASSES[6]
}

impl LineClass {
    fn width(self, spread: f64, kept: f64) -> f64
        ensures { result ≡ width_in self spread kept }
    {
        if self.kv >= EHV { kept } else { spread }
    }

    // With z the impedance base, and ratio a kV over the class's.
    fn row(self, z: f64, ratio: f64, km: f64, width: f64, load: f64) -> Row
        ensures { result ≡ row_in self z ratio km width load }
    {
        let thermal = self.thermal * ratio;
        let limit = self.sil * ratio * ratio * load;
        // The basis is a figure since the sheet is a table of figures (the C interface).
        let rated = Row {
            r: self.r * km * width / z,
            x: self.x * km * width / z,
            b: self.b * 1e-6 * km * z,
            rate: thermal,
            basis: 0.0,
        };
        if limit < thermal {
            Row {
                rate: limit,
                basis: 1.0,
                ..rated
            }
        } else {
            rated
        }
    }
}

// What the rows of a level have of its kV.
#[derive(Clone, Copy)]
pub struct Level {
    pub class: LineClass,
    pub z: f64,
    pub ratio: f64,
}

pub fn level_of(kv: f64) -> Level
    ensures { result ≡ level_in kv }
{
    let class = class_of(kv * kv);
    Level {
        class,
        z: kv * kv / BASE_MVA,
        ratio: kv / class.kv,
    }
}

impl Level {
    // The row of a line of `km`: `kept` is the spread to the power 0.6, and `load` the loadability.
    pub fn row(self, km: f64, spread: f64, kept: f64, load: f64) -> Row
        ensures { result ≡ level_row self km spread kept load }
    {
        let width = self.class.width(spread, kept);
        self.class.row(self.z, self.ratio, km, width, load)
    }
}
