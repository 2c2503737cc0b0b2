//! The two locales of a made bundle.

/// The blocks of an American and a French locale.
pub const LOCALES: &[u8] = b".locale us UTF-8
LC_CTYPE
END LC_CTYPE
LC_NUMERIC
decimal_point \".\"
thousands_sep \",\"
grouping 3;3
END LC_NUMERIC
LC_MONETARY
int_curr_symbol \"USD \"
currency_symbol \"$\"
mon_decimal_point \".\"
mon_thousands_sep \",\"
mon_grouping 3;3
positive_sign \"\"
negative_sign \"-\"
int_frac_digits 2
frac_digits 2
p_cs_precedes 1
p_sep_by_space 0
n_cs_precedes 1
n_sep_by_space 0
p_sign_posn 1
n_sign_posn 1
END LC_MONETARY
LC_TIME
d_t_fmt \"%a %d %b %Y %r\"
d_fmt \"%m/%d/%Y\"
t_fmt \"%r\"
END LC_TIME
LC_MESSAGES
END LC_MESSAGES
.end
.locale fr UTF-8
LC_CTYPE
END LC_CTYPE
LC_NUMERIC
decimal_point \",\"
thousands_sep \" \"
grouping 3
END LC_NUMERIC
LC_MONETARY
int_curr_symbol \"EUR \"
currency_symbol \"<U20AC>\"
mon_decimal_point \",\"
mon_thousands_sep \" \"
mon_grouping 3
negative_sign \"-\"
int_frac_digits 2
frac_digits 2
p_cs_precedes 0
p_sep_by_space 1
n_cs_precedes 0
n_sep_by_space 1
p_sign_posn 1
n_sign_posn 1
END LC_MONETARY
LC_TIME
abday \"dim\";\"lun\";\"mar\";\"mer\";\"jeu\";\"ven\";\"sam\"
day \"dimanche\";\"lundi\";\"mardi\";\"mercredi\";\"jeudi\";\\
\"vendredi\";\"samedi\"
abmon \"janv\";\"f<U00E9>vr\";\"mars\";\"avr\";\"mai\";\"juin\";\\
\"juil\";\"ao<U00FB>t\";\"sept\";\"oct\";\"nov\";\"d<U00E9>c\"
mon \"janvier\";\"f<U00E9>vrier\";\"mars\";\"avril\";\"mai\";\"juin\";\\
\"juillet\";\"ao<U00FB>t\";\"septembre\";\"octobre\";\"novembre\";\"d<U00E9>cembre\"
am_pm \"\";\"\"
d_t_fmt \"%a %d %b %Y %T\"
d_fmt \"%d/%m/%Y\"
t_fmt \"%T\"
t_fmt_ampm \"\"
END LC_TIME
LC_MESSAGES
yesexpr \"^[oOyY]\"
noexpr \"^[nN]\"
END LC_MESSAGES
.end
";
